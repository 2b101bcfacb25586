//! The lines read so far, and what the next one is held against.
ghost use Rattle.std.specs.Prelude.{◌≡◌, ◌<◌, ◌≤◌, ◌++◌, ◌∷◌, [], List, length, Some, IfSome, OnOk, IfErr, slice_get};
ghost use Rattle.std.specs.List.{list_all};
ghost use Rattle.script_text.specs.declared.fault.ParseFault.TheVariants.{Memory};
ghost use Rattle.script_lines.specs.Parts.{is_settings, asks_in, this_part, offered, channels, channels_of, has_bad, has_ring, has_window, modified_here, device_of};
ghost use Rattle.script_lines.specs.Faults.{is_first, is_over, is_now, is_ended_before, is_rescinded_here, is_closed_here};
ghost use Rattle.script_lines.specs.WellFormed.{IsScript, Fits};

use crate::bad_place::BadPlace;
use crate::{Ask, DeviceSpec, Line, What, shape_of};
use contact::Version;
use indexmap::IndexSet;
use script_text::{Name, ParseFault};
use std::alloc::Global;
use std::marker::Model;

/// What the lines so far say of a device.
#[derive(Clone, Copy)]
pub struct Seen {
    pub spec: DeviceSpec,
    /// It has a line on its data pages.
    pub ring: bool,
    /// It has a line on its window.
    pub window: bool,
    /// The phase that rescinds it.
    pub rescinded: Option<u32>,
    /// The phase that closes it.
    pub closed: Option<u32>,
    /// The last phase that moves it.
    pub modified: Option<u32>,
}

/// The lines read so far. The devices' names are kept by their hash, in order of offer, and what
/// the next line is held against is kept as it grows. Contracts see the list of the lines.
#[derive(Drop)]
pub struct Draft {
    lines: Vec<Line>,
    names: IndexSet<Name>,
    bad: IndexSet<BadPlace>,
    seen: Vec<Seen>,
    channels: u32,
    asks: u32,
    phase: u32,
    settings: bool,
}

impl Model for Draft {
    ghost use Rattle.std.specs.Prelude.{List};
    ghost use Rattle.script_lines.specs.declared.line.Line.{Line};
    ghost use Rattle.script_lines.specs.Draft.{Keeps};

    ghost Value = { List Line };

    ghost view = { λ d. d.lines.items };

    ghost invariant = { λ d. Keeps d.lines.items d.names.keys d.seen.items d.channels d.asks d.phase d.settings d.bad.keys };
}

impl Draft {
    /// No lines.
    pub fn make(alloc: Global) -> Draft
        ensures { result ≡ [] }
    {
        Draft {
            lines: Vec::new(alloc),
            names: IndexSet::new(alloc),
            bad: IndexSet::new(alloc),
            seen: Vec::new(alloc),
            channels: 0,
            asks: 0,
            phase: 0,
            settings: true,
        }
    }

    /// The lines.
    pub fn lines(self) -> Vec<Line>
        ensures lines { result.items ≡ self }
        ensures script { IsScript self }
    {
        self.lines
    }

    /// The device with this name.
    pub fn device_of(&self, name: &Name) -> Option<u32>
        ensures device { result ≡ device_of name.now self.now }
        ensures within { IfSome result (λ d. d < length (offered self.now)) }
    {
        match self.names.get_index_of(name) {
            Some(device) => Some(device as u32),
            None => None,
        }
    }

    /// A device that was offered.
    pub fn spec_at(&self, device: u32) -> DeviceSpec
        requires { device < length (offered self.now) }
        ensures { slice_get (offered self.now) device ≡ Some result }
    {
        self.seen[device as usize].spec
    }

    /// Whether a line makes a block of a device bad.
    pub fn has_bad(&self, device: u32, lba: u64) -> bool
        ensures { result ≡ has_bad device lba self.now }
    {
        self.bad.contains(&BadPlace { device, lba })
    }

    /// Whether a device has a line on its data pages.
    pub fn has_ring(&self, device: u32) -> bool
        requires { device < length (offered self.now) }
        ensures { result ≡ has_ring device self.now }
    {
        self.seen[device as usize].ring
    }

    /// Whether a device has a line on its window.
    pub fn has_window(&self, device: u32) -> bool
        requires { device < length (offered self.now) }
        ensures { result ≡ has_window device self.now }
    {
        self.seen[device as usize].window
    }

    /// Whether an earlier phase rescinded or closed a device.
    pub fn is_ended_before(&self, device: u32) -> bool
        requires { device < length (offered self.now) }
        ensures { result ≡ is_ended_before self.now device }
    {
        let seen = self.seen[device as usize];
        is_over(self.phase, seen.rescinded) || is_over(self.phase, seen.closed)
    }

    /// Whether the phase that goes on rescinds a device.
    pub fn is_rescinded_here(&self, device: u32) -> bool
        requires { device < length (offered self.now) }
        ensures { result ≡ is_rescinded_here self.now device }
    {
        is_now(self.phase, self.seen[device as usize].rescinded)
    }

    /// Whether the phase that goes on closes a device.
    pub fn is_closed_here(&self, device: u32) -> bool
        requires { device < length (offered self.now) }
        ensures { result ≡ is_closed_here self.now device }
    {
        is_now(self.phase, self.seen[device as usize].closed)
    }

    /// Whether the phase that goes on moves a device.
    pub fn is_modified_here(&self, device: u32) -> bool
        requires { device < length (offered self.now) }
        ensures { result ≡ modified_here device self.now }
    {
        is_now(self.phase, self.seen[device as usize].modified)
    }

    /// Whether no line with words was read.
    pub fn is_first(&self) -> bool
        ensures { result ≡ is_first self.now }
    {
        self.lines.is_empty()
    }

    /// Whether all lines so far are settings.
    pub fn is_all_settings(&self) -> bool
        ensures { result ≡ list_all (λ l. is_settings l.what) self.now }
    {
        self.settings
    }

    /// How many channels the devices have.
    pub fn channels(&self) -> u32
        ensures count { result ≡ channels self.now }
        ensures most { result ≤ 16 }
    {
        self.channels
    }

    /// How many requests the phase that goes on has.
    pub fn asks(&self) -> u32
        ensures { result ≡ asks_in (this_part self.now) }
    {
        self.asks
    }

    /// The line of versions.
    pub fn push_contact(
        &mut self,
        number: u32,
        guest: Version,
        host: Version,
    ) -> Result<(), ParseFault>
        requires { Fits self.old (What.Contact guest host) }
        ensures ok { OnOk result (self.new ≡ self.old ++ record { number = number; what = What.Contact guest host } ∷ []) }
        ensures err { IfErr result (λ e. e ≡ Memory) }
    {
        self.lines.push(Line {
            number,
            what: What::Contact { guest, host },
        })?;
        Ok(())
    }

    /// The offer of a device.
    pub fn push_offer(
        &mut self,
        number: u32,
        name: Name,
        spec: DeviceSpec,
    ) -> Result<(), ParseFault>
        requires { Fits self.old (What.Offer name spec) }
        ensures ok { OnOk result (self.new ≡ self.old ++ record { number = number; what = What.Offer name spec } ∷ []) }
        ensures err { IfErr result (λ e. e ≡ Memory) }
    {
        self.lines.reserve(1)?;
        self.seen.reserve(1)?;
        self.names.insert(name.again())?;
        self.seen.push_reserved(Seen {
            spec,
            ring: false,
            window: false,
            rescinded: None,
            closed: None,
            modified: None,
        });
        self.channels += channels_of(spec);
        self.lines.push_reserved(Line {
            number,
            what: What::Offer { name, device: spec },
        });
        Ok(())
    }

    /// A block of a device that can't be read.
    pub fn push_bad(&mut self, number: u32, device: u32, lba: u64) -> Result<(), ParseFault>
        requires { Fits self.old (What.Bad device lba) }
        ensures ok { OnOk result (self.new ≡ self.old ++ record { number = number; what = What.Bad device lba } ∷ []) }
        ensures err { IfErr result (λ e. e ≡ Memory) }
    {
        self.lines.reserve(1)?;
        self.bad.insert(BadPlace { device, lba })?;
        self.lines.push_reserved(Line {
            number,
            what: What::Bad { device, lba },
        });
        Ok(())
    }

    /// The data pages of a device.
    pub fn push_ring(&mut self, number: u32, device: u32, pages: u32) -> Result<(), ParseFault>
        requires { Fits self.old (What.RingSize device pages) }
        ensures ok { OnOk result (self.new ≡ self.old ++ record { number = number; what = What.RingSize device pages } ∷ []) }
        ensures err { IfErr result (λ e. e ≡ Memory) }
    {
        self.lines.push(Line {
            number,
            what: What::RingSize { device, pages },
        })?;
        self.seen[device as usize].ring = true;
        Ok(())
    }

    /// The window of a device.
    pub fn push_window(&mut self, number: u32, device: u32, size: u32) -> Result<(), ParseFault>
        requires { Fits self.old (What.Window device size) }
        ensures ok { OnOk result (self.new ≡ self.old ++ record { number = number; what = What.Window device size } ∷ []) }
        ensures err { IfErr result (λ e. e ≡ Memory) }
    {
        self.lines.push(Line {
            number,
            what: What::Window { device, size },
        })?;
        self.seen[device as usize].window = true;
        Ok(())
    }

    /// A request to a device.
    pub fn push_ask(&mut self, number: u32, device: u32, ask: Ask) -> Result<(), ParseFault>
        requires { Fits self.old (What.Ask device ask) }
        ensures ok { OnOk result (self.new ≡ self.old ++ record { number = number; what = What.Ask device ask } ∷ []) }
        ensures err { IfErr result (λ e. e ≡ Memory) }
    {
        self.lines.push(Line {
            number,
            what: What::Ask { device, ask },
        })?;
        self.asks += 1;
        self.settings = false;
        Ok(())
    }

    /// The rescind of a device.
    pub fn push_rescind(
        &mut self,
        number: u32,
        device: u32,
        after: u32,
        held: bool,
    ) -> Result<(), ParseFault>
        requires { Fits self.old (What.Rescind device after held) }
        ensures ok { OnOk result (self.new ≡ self.old ++ record { number = number; what = What.Rescind device after held } ∷ []) }
        ensures err { IfErr result (λ e. e ≡ Memory) }
    {
        self.lines.push(Line {
            number,
            what: What::Rescind {
                device,
                after,
                held,
            },
        })?;
        self.seen[device as usize].rescinded = Some(self.phase);
        self.settings = false;
        Ok(())
    }

    /// The close of a device.
    pub fn push_shut(&mut self, number: u32, device: u32) -> Result<(), ParseFault>
        requires { Fits self.old (What.Shut device) }
        ensures ok { OnOk result (self.new ≡ self.old ++ record { number = number; what = What.Shut device } ∷ []) }
        ensures err { IfErr result (λ e. e ≡ Memory) }
    {
        self.lines.push(Line {
            number,
            what: What::Shut { device },
        })?;
        self.seen[device as usize].closed = Some(self.phase);
        self.settings = false;
        Ok(())
    }

    /// The processor that takes the interrupts of a device's first channel.
    pub fn push_modify(&mut self, number: u32, device: u32, vp: u32) -> Result<(), ParseFault>
        requires { Fits self.old (What.Modify device vp) }
        ensures ok { OnOk result (self.new ≡ self.old ++ record { number = number; what = What.Modify device vp } ∷ []) }
        ensures err { IfErr result (λ e. e ≡ Memory) }
    {
        self.lines.push(Line {
            number,
            what: What::Modify { device, vp },
        })?;
        self.seen[device as usize].modified = Some(self.phase);
        self.settings = false;
        Ok(())
    }

    /// The next phase.
    pub fn push_phase(&mut self, number: u32) -> Result<(), ParseFault>
        requires { Fits self.old What.Phase }
        ensures ok { OnOk result (self.new ≡ self.old ++ record { number = number; what = What.Phase } ∷ []) }
        ensures err { IfErr result (λ e. e ≡ Memory) }
    {
        self.lines.push(Line {
            number,
            what: What::Phase,
        })?;
        self.phase += 1;
        self.asks = 0;
        self.settings = false;
        Ok(())
    }
}

/// Whether a phase is over, where the phase `now` goes on.
fn is_over(now: u32, phase: Option<u32>) -> bool
    ensures { result ≡ is_over now phase }
{
    match phase {
        Some(phase) => phase < now,
        None => false,
    }
}

/// Whether a phase is the one that goes on.
fn is_now(now: u32, phase: Option<u32>) -> bool
    ensures { result ≡ is_now now phase }
{
    match phase {
        Some(phase) => phase == now,
        None => false,
    }
}

/// How many channels a device has.
pub fn channels_of(spec: DeviceSpec) -> u32
    requires { channels_of spec ≤ 16 }
    ensures count { result ≡ channels_of spec }
    ensures some { 1 ≤ result }
    ensures most { result ≤ 16 }
{
    1 + shape_of(spec).subs
}
