//! The end of a phase: its channels are closed by the guest, or rescinded by the host.
ghost use Rattle.std.specs.Prelude.{◌≡◌, Some, IfSome};
ghost use Rattle.control_model.specs.Channels.{by_relid};
ghost use Rattle.control_model.specs.Plan.{opening_in, IsOpening};
ghost use Rattle.control_model.specs.Host.{first_next, waits, waits_end, stays, next_end, ended_at, torn_for, torn_then, released_then, wants_rescind, rescinded_among, without_its};

use crate::HostControl;
use crate::answers::can_unload;
use crate::lists::let_all_go;
use chan_state::{ChanState, Event};
use contact::Part;
use control_model::{Buffer, HostNext, HostWait, Opening, Rescind};
use gpadl::Assembler;

impl HostControl {
    // What it goes on with at the start of a part.
    pub(crate) fn first_next(&self, part: Part) -> HostNext
        ensures next { result ≡ first_next self.now part }
        ensures fits { IfSome result.rescinds (λ r. IsOpening r.opening) }
    {
        match part {
            Part::Contact => waits(HostWait::Contact),
            Part::PhaseStart(_) => waits(self.waits_list(Some(part), 0)),
            Part::PhaseEnd(_) => self.next_end(Some(part), 0),
            Part::Unload => {
                if can_unload(self.version) {
                    waits(HostWait::Unload)
                } else {
                    waits(HostWait::Nothing)
                }
            }
        }
    }

    // Goes on with the opening at a place, if there is one: its channel is rescinded; or waits for the
    // guest to close it, once it tore the page lists of its buffers down.
    pub(crate) fn next_end(&self, part: Option<Part>, place: usize) -> HostNext
        ensures next { result ≡ next_end self.now.channels place (opening_in self.now.plan part place) }
        ensures fits { IfSome result.rescinds (λ r. IsOpening r.opening) }
    {
        match self.plan.opening(part, place) {
            Some(o) if o.rescinded => HostNext {
                awaits: HostWait::Release(place),
                rescinds: self.wants_rescind(o),
            },
            Some(o) => waits(waits_end(place, o.buffers)),
            None => waits(HostWait::Nothing),
        }
    }

    // The channel of an opening is rescinded, where the table of its life has a row for that.
    fn wants_rescind(&self, o: Opening) -> Option<Rescind>
        requires { IsOpening o }
        ensures rescind { result ≡ wants_rescind o (by_relid self.now.channels o.relid) }
        ensures fits { IfSome result (λ r. IsOpening r.opening) }
    {
        match self.life(o.relid) {
            Some(life) => rescind_of(o, life),
            None => None,
        }
    }

    // The channel of the opening at a place is done with, where it is this one, and the host goes on
    // with the next opening.
    fn ended_at(&self, place: usize, relid: u32) -> HostNext
        ensures next { result ≡ ended_at self.now place relid }
        ensures fits { IfSome result.rescinds (λ r. IsOpening r.opening) }
    {
        match self.plan.opening(self.part(), place) {
            Some(o) if o.relid == relid => self.next_end(self.part(), place + 1),
            _ => self.stays(),
        }
    }

    // It waits for what it waited for.
    fn stays(&self) -> HostNext
        ensures next { result ≡ stays self.now }
        ensures fits { IfSome result.rescinds (λ r. IsOpening r.opening) }
    {
        waits(self.awaits)
    }

    // What it goes on with once a page list was torn down, whose channel stands so then.
    pub(crate) fn torn_then(&self, relid: u32, life: ChanState) -> HostNext
        ensures next { result ≡ torn_then self.now self.now.awaits relid life }
        ensures fits { IfSome result.rescinds (λ r. IsOpening r.opening) }
    {
        match self.awaits {
            HostWait::Teardown(place) => self.torn_at(place, relid, life),
            _ => self.stays(),
        }
    }

    // The same, where it waited for the opening at a place: a sub-channel is rescinded then.
    fn torn_at(&self, place: usize, relid: u32, life: ChanState) -> HostNext
        ensures next { result ≡ torn_for self.now place relid life (opening_in self.now.plan self.now.part place) }
        ensures fits { IfSome result.rescinds (λ r. IsOpening r.opening) }
    {
        match self.plan.opening(self.part(), place) {
            Some(o) if o.relid == relid && o.sub != 0 => HostNext {
                awaits: HostWait::Release(place),
                rescinds: rescind_of(o, life),
            },
            _ => self.ended_at(place, relid),
        }
    }

    // What it goes on with once a channel was given back.
    pub(crate) fn released_then(&self, relid: u32) -> HostNext
        ensures next { result ≡ released_then self.now self.now.awaits relid }
        ensures fits { IfSome result.rescinds (λ r. IsOpening r.opening) }
    {
        match self.awaits {
            HostWait::Release(place) => self.ended_at(place, relid),
            _ => self.stays(),
        }
    }
}

// A channel that stands so is rescinded, where the table of its life has a row for that.
fn rescind_of(o: Opening, life: ChanState) -> Option<Rescind>
    requires { IsOpening o }
    ensures rescind { result ≡ wants_rescind o (Some life) }
    ensures fits { IfSome result (λ r. IsOpening r.opening) }
{
    let mut now = life;
    match now.event(Event::WantRescind) {
        Ok(_) => Some(Rescind {
            opening: o,
            life: now,
        }),
        Err(_) => None,
    }
}

// The guest closes a channel, once it tore the page lists of its buffers down.
fn waits_end(place: usize, buffers: bool) -> HostWait
    ensures { result ≡ waits_end place buffers }
{
    if buffers {
        HostWait::Empty(place, Buffer::Send)
    } else {
        HostWait::Close(place)
    }
}

// It waits, and rescinds no channel.
fn waits(awaits: HostWait) -> HostNext
    ensures { result ≡ waits awaits }
{
    HostNext {
        awaits,
        rescinds: None,
    }
}

// A channel that is rescinded stands so then.
pub(crate) fn put_rescinded(channels: &mut Vec<ChanState>, rescinds: Option<Rescind>)
    ensures { channels.new.items ≡ rescinded_among channels.old.items rescinds }
{
    if let Some(r) = rescinds {
        let place = r.opening.relid.saturating_sub(1) as usize;
        if place < channels.len() {
            channels[place] = r.life;
        }
    }
}

// The page lists of a channel that is rescinded end.
pub(crate) fn end_list(lists: &mut Assembler, rescinds: Option<Rescind>)
    requires { IfSome rescinds (λ r. IsOpening r.opening) }
    ensures { lists.new ≡ without_its lists.old rescinds }
{
    if let Some(r) = rescinds {
        let_all_go(lists, &r.opening);
    }
}
