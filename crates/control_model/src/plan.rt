//! What both controls know from the start.
ghost use Rattle.std.specs.Prelude.{◌≡◌, ◌+◌, ◌^◌, ◌<◌, ◌≤◌, ◌==◌, drop, length, map, slice_get, IfOk, IfSome, OnSome, IsTrue};
ghost use Rattle.std.specs.List.{position};
ghost use Rattle.contact.specs.Versions.{IsVersion};
ghost use Rattle.control_model.specs.Plan.{phase_of, is_buffer, is_buffer_in, openings_in, opening_at, closing_at, opening_in, first_subs, subs_next, subs_behind, movers, movers_in, part_after, IsOpening, IsPlan, Seated};
ghost use Rattle.control_model.specs.Places.{is_first_at, closing_place};
ghost use Rattle.control_model.specs.Openings.{plan_of};
ghost use Rattle.control_model.specs.Sock.{sock_plan};

use crate::Opening;
use crate::planning::{FIRST_GPADL, HIGHEST, kinds, phases, specs, versions};
use bus_script::Script;
use contact::{Kind, Part, Version};
use std::alloc::{AllocError, Global};
use std::marker::Model;

/// The versions of both ends, the devices, and which channels each phase opens.
#[derive(Drop)]
pub struct ControlPlan {
    guest: Version,
    host: Version,
    kinds: Vec<Kind>,
    phases: Vec<Vec<Opening>>,
}

impl Model for ControlPlan {
    ghost use Rattle.std.specs.Prelude.{map};
    ghost use Rattle.control_model.specs.Plan.{BusPlan, IsPlan};

    ghost Value = { BusPlan };

    ghost view = { λ p. record { guest = p.guest; host = p.host; kinds = p.kinds.items; phases = map (λ phase. phase.items) p.phases.items } };

    ghost invariant = { λ p. IsPlan (record { guest = p.guest; host = p.host; kinds = p.kinds.items; phases = map (λ phase. phase.items) p.phases.items }) };
}

impl ControlPlan {
    /// The plan of a script.
    pub fn of(alloc: Global, script: &Script) -> Result<ControlPlan, AllocError>
        ensures { IfOk result (λ plan. plan ≡ plan_of script.now) }
    {
        let lines = script.lines();
        let (guest, host) = versions(lines);
        let specs = specs(alloc, lines)?;
        let kinds = kinds(alloc, specs.as_slice())?;
        let phases = phases(alloc, lines, specs.as_slice())?;
        Ok(ControlPlan {
            guest,
            host,
            kinds,
            phases,
        })
    }

    /// The plan of a socket of the service at a port: both ends have 5.2, no device is offered, and the
    /// one phase opens the service's channel, which the guest asks for. Its rings have 16 pages, and the
    /// host rescinds it at the end of the phase.
    pub fn of_sock(alloc: Global, port: u32) -> Result<ControlPlan, AllocError>
        ensures { IfOk result (λ plan. plan ≡ sock_plan port) }
    {
        let mut openings = Vec::with_capacity(alloc, 1)?;
        openings.push_reserved(Opening {
            relid: 1,
            sub: 0,
            ring_pages: 16,
            gpadl: FIRST_GPADL,
            first_page: 0,
            rescinded: true,
            vp: None,
            dialed: Some(port),
            buffers: false,
        });
        let mut phases = Vec::with_capacity(alloc, 1)?;
        phases.push_reserved(openings);
        Ok(ControlPlan {
            guest: HIGHEST,
            host: HIGHEST,
            kinds: Vec::new(alloc),
            phases,
        })
    }

    /// The plan of these versions, devices and openings, for a caller without a script.
    pub fn new(
        guest: Version,
        host: Version,
        kinds: Vec<Kind>,
        phases: Vec<Vec<Opening>>,
    ) -> ControlPlan
        requires plan { IsPlan (record { guest = guest; host = host; kinds = kinds.items; phases = map (λ phase. phase.items) phases.items }) }
        ensures made { result ≡ record { guest = guest; host = host; kinds = kinds.items; phases = map (λ phase. phase.items) phases.items } }
    {
        ControlPlan {
            guest,
            host,
            kinds,
            phases,
        }
    }

    /// The guest's highest version.
    pub fn guest(&self) -> Version
        ensures version { result ≡ self.now.guest }
        ensures listed { IsVersion result.0 }
    {
        self.guest
    }

    /// The host's highest version.
    pub fn host(&self) -> Version
        ensures version { result ≡ self.now.host }
        ensures listed { IsVersion result.0 }
    {
        self.host
    }

    /// The kinds of the devices, in order of offer.
    pub fn kinds(&self) -> &[Kind]
        ensures kinds { result.now ≡ self.now.kinds }
        ensures few { length self.now.kinds ≤ 16 }
    {
        &self.kinds
    }

    /// The opening with this place in the phase that starts or ends in a part: at the start of a phase in
    /// the order in which channels are opened, and at its end in the order in which they are closed.
    pub fn opening(&self, part: Option<Part>, place: usize) -> Option<Opening>
        ensures opening { result ≡ opening_in self.now part place }
        ensures fits { IfSome result (λ o. IsOpening o) }
        ensures small { OnSome result (place + 1 < 2 ^ 64) }
    {
        match part {
            Some(Part::PhaseStart(phase)) => self.opening_at(phase, place),
            Some(Part::PhaseEnd(phase)) => self.closing_at(phase, place),
            _ => None,
        }
    }

    /// The part that comes after another one, or the first.
    pub fn part_after(&self, last: Option<Part>) -> Option<Part>
        ensures { result ≡ part_after self.now last }
    {
        match last {
            None => Some(Part::Contact),
            Some(Part::Contact) => Some(Part::PhaseStart(0)),
            Some(Part::PhaseStart(phase)) => Some(Part::PhaseEnd(phase)),
            Some(Part::PhaseEnd(phase)) => {
                if phase as usize + 1 < self.phases.len() {
                    Some(Part::PhaseStart(phase + 1))
                } else {
                    Some(Part::Unload)
                }
            }
            Some(Part::Unload) => None,
        }
    }

    /// The sub-channels of the device whose first channel is opened at this place, while the phase of a
    /// part starts: none behind another channel, nor in another part.
    pub fn subs_behind(&self, part: Option<Part>, place: usize) -> &[Opening]
        ensures subs { result.now ≡ subs_behind self.now part place }
        ensures few { length result.now ≤ 16 }
    {
        match part {
            Some(Part::PhaseStart(phase)) => subs_next(self.phase(phase), place),
            _ => &[],
        }
    }

    /// The openings of the phase that starts in a part, where channels can be moved in it: none
    /// otherwise. Those with a processor are moved.
    pub fn with_movers(&self, part: Option<Part>, can_modify: bool) -> &[Opening]
        ensures movers { movers result.now ≡ movers_in self.now part can_modify }
        ensures few { length result.now ≤ 16 }
    {
        match part {
            Some(Part::PhaseStart(phase)) if can_modify => self.phase(phase),
            _ => &[],
        }
    }

    /// The opening with this number among those whose channels are moved, while the phase of a part
    /// starts, where channels can be moved in it.
    pub fn mover(&self, part: Option<Part>, can_modify: bool, number: usize) -> Option<Opening>
        ensures mover { result ≡ slice_get (movers_in self.now part can_modify) number }
        ensures small { OnSome result (number + 1 < 2 ^ 64) }
    {
        mover_at(self.with_movers(part, can_modify), number)
    }

    /// Whether a handle is that of a buffer's page list, of the channel with this relid, among the openings
    /// of the phase that starts or ends in a part.
    pub fn is_buffer(&self, part: Option<Part>, relid: u32, gpadl: u32) -> bool
        ensures { result ≡ is_buffer_in self.now part relid gpadl }
    {
        self.openings_in(part)
            .iter()
            .any(|o| o.relid == relid && is_buffer(o, gpadl))
    }

    // The openings of the phase that starts or ends in a part.
    fn openings_in(&self, part: Option<Part>) -> &[Opening]
        ensures { result.now ≡ openings_in self.now part }
    {
        match part {
            Some(Part::PhaseStart(phase)) => self.phase(phase),
            Some(Part::PhaseEnd(phase)) => self.phase(phase),
            _ => &[],
        }
    }

    // The openings of a phase.
    fn phase(&self, phase: u32) -> &[Opening]
        ensures openings { result.now ≡ phase_of self.now phase }
        ensures few { length result.now ≤ 16 }
        ensures seated { Seated 0 result.now }
    {
        let phase = phase as usize;
        if phase < self.phases.len() {
            return &self.phases[phase];
        }
        &[]
    }

    // The opening with this place in a phase, in the order in which its channels are closed.
    fn closing_at(&self, phase: u32, place: usize) -> Option<Opening>
        ensures opening { result ≡ closing_at self.now phase place }
        ensures fits { IfSome result (λ o. IsOpening o) }
        ensures small { OnSome result (place + 1 < 2 ^ 64) }
    {
        let openings = self.phase(phase);
        if place >= openings.len() {
            return None;
        }
        self.opening_at(phase, closing_place(openings, place))
    }

    // The opening with this place in a phase.
    fn opening_at(&self, phase: u32, place: usize) -> Option<Opening>
        ensures opening { result ≡ opening_at self.now phase place }
        ensures fits { IfSome result (λ o. IsOpening o) }
        ensures small { OnSome result (place + 1 < 2 ^ 64) }
    {
        let phase = phase as usize;
        if phase < self.phases.len() {
            let openings = &self.phases[phase];
            if place < openings.len() {
                return Some(openings[place]);
            }
        }
        None
    }
}

// Whether an opening has buffers, and a handle is that of the page list of one of them.
fn is_buffer(o: &Opening, gpadl: u32) -> bool
    ensures { result ≡ is_buffer o.now gpadl }
{
    let rings = u64::from(o.gpadl);
    let handle = u64::from(gpadl);
    o.buffers && (rings + 1 == handle || rings + 2 == handle)
}

// The sub-channels of the device whose first channel stands at a place.
fn subs_next(openings: &[Opening], place: usize) -> &[Opening]
    ensures { result.now ≡ subs_next (drop place openings.now) }
{
    if is_first_at(openings, place) {
        return subs_from(openings, place + 1);
    }
    &[]
}

// The opening with this number among those that are moved.
fn mover_at(openings: &[Opening], number: usize) -> Option<Opening>
    requires { length openings.now ≤ 16 }
    ensures mover { result ≡ slice_get (movers openings.now) number }
    ensures small { OnSome result (number + 1 < 2 ^ 64) }
{
    let mut left = number;
    for o in openings {
        if o.vp.is_some() {
            if left == 0 {
                return Some(*o);
            }
            left -= 1;
        }
    }
    None
}

// Whether a device's first channel stands at a place.
fn is_first_at(openings: &[Opening], place: usize) -> bool
    ensures first { result ≡ is_first_at openings.now place }
    ensures within { IsTrue result → place < length openings.now }
{
    match openings.get(place) {
        Some(o) => o.sub == 0,
        None => false,
    }
}

// The sub-channels that stand from a place on, up to the next first channel.
fn subs_from(openings: &[Opening], start: usize) -> &[Opening]
    requires { start ≤ length openings.now }
    ensures { result.now ≡ first_subs (drop start openings.now) }
{
    let behind = &openings[start..];
    match first_place(behind) {
        Some(count) => &behind[..count],
        None => behind,
    }
}

// The place of the first one that is of no sub-channel.
fn first_place(openings: &[Opening]) -> Option<usize>
    ensures { result ≡ position (λ o. o.sub == 0) openings.now }
{
    openings.iter().position(|o| o.sub == 0)
}

// Where the opening with this place in closing order stands among the openings of a phase: a
// sub-channel one place later, and a device's first channel where the device begins.
fn closing_place(openings: &[Opening], place: usize) -> usize
    requires { place < length openings.now }
    ensures { result ≡ closing_place openings.now place }
{
    match openings.get(place + 1) {
        Some(next) if next.sub != 0 => place + 1,
        _ => place.saturating_sub(openings[place].sub as usize),
    }
}
