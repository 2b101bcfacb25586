//! What the lines of a phase say to one device.
ghost use Rattle.std.specs.Prelude.{◌≡◌, ◌++◌, ◌∷◌, [], List, ◌||◌, not, ◌&&◌, is_some, OnOk};
ghost use Rattle.script_lines.specs.Lines.{Says};
ghost use Rattle.phase_plan.specs.Told.{IsTold, says_told};

use crate::DeviceLine;
use chan_state::Stop;
use script_lines::Ask;
use std::alloc::{AllocError, Global};

/// What the lines of a phase say to one device.
#[derive(Drop)]
pub struct DeviceLines<'a> {
    /// Its requests, in order.
    pub asks: Vec<&'a Ask>,
    /// Where its service stops, if the phase rescinds it.
    pub stop: Option<Stop>,
    /// Whether the phase closes it.
    pub is_closed: bool,
    /// The processor that the interrupts of its first channel go to, if they are moved.
    pub vp: Option<u32>,
    /// Whether a line speaks to it at all.
    pub is_named: bool,
}

impl<'a> DeviceLines<'a> {
    /// Of no line.
    pub(crate) fn none(alloc: Global) -> DeviceLines<'a>
        ensures { IsTold [] result }
    {
        DeviceLines {
            asks: Vec::new(alloc),
            stop: None,
            is_closed: false,
            vp: None,
            is_named: false,
        }
    }

    /// One line more. The first stop counts, and the first processor.
    pub(crate) fn note(&mut self, line: DeviceLine<'a>) -> Result<(), AllocError>
        ensures { OnOk result ((said : List Says) → IsTold said self.old → IsTold (said ++ says_told line.entry ∷ []) self.new) }
    {
        self.is_named = true;
        match line {
            DeviceLine::Asks(ask) => {
                self.asks.push(ask)?;
                Ok(())
            }
            DeviceLine::Rescinds(stop) => {
                self.stop = self.stop.or(Some(stop));
                Ok(())
            }
            DeviceLine::Shuts => {
                self.is_closed = true;
                Ok(())
            }
            DeviceLine::Modifies(vp) => {
                self.vp = self.vp.or(Some(vp));
                Ok(())
            }
        }
    }

    /// Whether the phase opens the device, which an earlier one has `ended` or not: a line speaks to it.
    pub(crate) fn opens(&self, ended: bool) -> bool
        ensures { result ≡ (not ended && self.now.is_named) }
    {
        !ended && self.is_named
    }

    /// Whether the phase ends the device for all later ones: rescinds it, or closes it.
    pub(crate) fn ends(&self) -> bool
        ensures { result ≡ (is_some self.now.stop || self.now.is_closed) }
    {
        self.stop.is_some() || self.is_closed
    }
}
