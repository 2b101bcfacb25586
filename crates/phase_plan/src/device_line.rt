//! What a line of a phase says to a device.
ghost use Rattle.std.specs.Prelude.{◌≡◌};
ghost use Rattle.script_lines.specs.Lines.{said};
ghost use Rattle.phase_plan.specs.Told.{said_told};

use chan_state::Stop;
use script_lines::{Ask, What};

/// What a line says to a device.
#[derive(Drop)]
pub enum DeviceLine<'a> {
    /// A request.
    Asks(&'a Ask),
    /// It is rescinded, and its service stops there.
    Rescinds(Stop),
    /// It is closed.
    Shuts,
    /// The interrupts of its first channel go to this processor.
    Modifies(u32),
}

/// The device that a line speaks to, and what it says.
pub fn to_device(what: &What) -> Option<(u32, DeviceLine<'_>)>
    ensures { said_told result ≡ said what.now }
{
    match what {
        What::Ask { device, ask } => Some((*device, DeviceLine::Asks(ask))),
        What::Rescind {
            device,
            after,
            held,
        } => Some((
            *device,
            DeviceLine::Rescinds(Stop {
                after: *after,
                held: *held,
            }),
        )),
        What::Shut { device } => Some((*device, DeviceLine::Shuts)),
        What::Modify { device, vp } => Some((*device, DeviceLine::Modifies(*vp))),
        _ => None,
    }
}
