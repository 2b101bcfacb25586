//! The lines of a phase, dealt to the devices.
ghost use Rattle.std.specs.Prelude.{◌≡◌, [], length, IfOk, OnOk};
ghost use Rattle.phase_plan.specs.Told.{AreDealt, DealsOn};

use crate::{DeviceLines, to_device};
use script_lines::{Line, What};
use std::alloc::{AllocError, Global};

/// So many devices, to which nothing was said yet.
fn unnamed<'a>(alloc: Global, count: usize) -> Result<Vec<DeviceLines<'a>>, AllocError>
    ensures count { IfOk result (λ devices. length devices.items ≡ count) }
    ensures dealt { IfOk result (λ devices. AreDealt [] devices.items) }
{
    let mut devices = Vec::with_capacity(alloc, count)?;
    for _ in 0..count {
        devices.push_reserved(DeviceLines::none(alloc));
    }
    Ok(devices)
}

/// Deals one more line.
fn deal_line<'a>(devices: &mut [DeviceLines<'a>], what: &'a What) -> Result<(), AllocError>
    ensures { OnOk result (DealsOn what.now devices.old devices.new) }
{
    let Some((device, line)) = to_device(what) else {
        return Ok(());
    };
    let at = device as usize;
    if at < devices.len() {
        devices[at].note(line)?;
    }
    Ok(())
}

/// What the lines of a phase say to each of so many devices, in one pass over the lines. A line for no one of them is passed over.
pub fn deal_lines(
    alloc: Global,
    count: usize,
    part: &[Line],
) -> Result<Vec<DeviceLines<'_>>, AllocError>
    ensures count { IfOk result (λ devices. length devices.items ≡ count) }
    ensures dealt { IfOk result (λ devices. AreDealt part.now devices.items) }
{
    let mut devices = unnamed(alloc, count)?;
    for line in part {
        deal_line(&mut devices, &line.what)?;
    }
    Ok(devices)
}
