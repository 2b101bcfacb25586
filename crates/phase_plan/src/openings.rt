//! Which channels a phase opens, and which devices it ends.
ghost use Rattle.std.specs.Prelude.{◌≡◌, ◌+◌, ◌<◌, ◌≤◌, ◌^◌, ◌++◌, ℕ, List, All, map, length, IfOk, OnOk, if◌then◌else◌};
ghost use Rattle.script_lines.specs.declared.line.DeviceSpec.{DeviceSpec as OneSpec};
ghost use Rattle.script_lines.specs.declared.line.Line.{Line as OneLine};
ghost use Rattle.script_phases.specs.Openings.{subs_of, opened_from, others, is_opened};
ghost use Rattle.phase_plan.specs.Told.{AreDealt};
ghost use Rattle.phase_plan.specs.Opened.{AreEnded, AreDevices, IsOfDevice, channels_if, plain};

use crate::{DeviceLines, Opening};
use std::alloc::{AllocError, Global};

/// The channels of one more device, if it is opened: its first one has the relid that the device was offered with (they count from 1, in order of offer), and each of so many
/// sub-channels takes the next one.
fn open_device(
    opened: bool,
    device: u32,
    subs: u32,
    openings: &mut Vec<Opening>,
    next: &mut u32,
) -> Result<(), AllocError>
    requires device { device < 16 }
    requires subs { subs ≤ 3 }
    requires room { next.old + 3 < 2 ^ 32 }
    ensures openings { OnOk result ((spec : OneSpec) → subs_of spec ≡ subs → openings.new.items ≡ openings.old.items ++ map plain (channels_if opened device spec next.old)) }
    ensures next { OnOk result (next.new ≡ next.old + (if opened then subs else 0)) }
    ensures within { OnOk result ((count : ℕ) → device < count → All (IsOfDevice count) openings.old.items → All (IsOfDevice count) openings.new.items) }
    ensures few { OnOk result ((length openings.new.items ≤ length openings.old.items + 4) × (next.new ≤ next.old + 3)) }
{
    if !opened {
        return Ok(());
    }
    openings.push(Opening {
        relid: device + 1,
        device,
        sub: 0,
    })?;
    for i in 0..subs {
        openings.push(Opening {
            relid: *next,
            device,
            sub: 1 + i,
        })?;
        *next += 1;
    }
    Ok(())
}

/// The channels that a phase opens, by what its lines say to each device: device by device in order of offer, the sub-channels of each behind its first channel. `ended` says which
/// devices earlier phases ended, `subs` how many channels each has beside the first one, and `next` is the first relid that no channel has had: each sub-channel takes one.
pub fn phase_openings(
    alloc: Global,
    ended: &[bool],
    devices: &[DeviceLines<'_>],
    subs: &[u32],
    next: &mut u32,
) -> Result<Vec<Opening>, AllocError>
    requires few { length devices.now ≤ 16 }
    requires ended { length ended.now ≡ length devices.now }
    requires subs { length subs.now ≡ length devices.now }
    requires most { All (λ n. n ≤ 3) subs.now }
    requires room { next.old + 48 < 2 ^ 32 }
    ensures opened { IfOk result (λ os. (earlier part : List OneLine) (specs : List OneSpec) → AreDevices earlier part specs ended.now devices.now subs.now → os.items ≡ map plain (opened_from (is_opened earlier part) 0 next.old specs)) }
    ensures next { OnOk result ((earlier part : List OneLine) (specs : List OneSpec) → AreDevices earlier part specs ended.now devices.now subs.now → next.new ≡ next.old + length (others (opened_from (is_opened earlier part) 0 next.old specs))) }
    ensures within { IfOk result (λ os. All (IsOfDevice (length devices.now)) os.items) }
    ensures few_more { IfOk result (λ os. length os.items ≤ 64) }
    ensures room { OnOk result (next.new ≤ next.old + 48) }
{
    let mut openings = Vec::new(alloc);
    for device in 0..devices.len() {
        let opened = devices[device].opens(ended[device]);
        open_device(opened, device as u32, subs[device], &mut openings, next)?;
    }
    Ok(openings)
}

/// Notes which devices a phase ends, by what its lines say to each.
pub fn end_devices(ended: &mut [bool], devices: &[DeviceLines<'_>])
    requires { length ended.old ≡ length devices.now }
    ensures count { length ended.new ≡ length ended.old }
    ensures ended { (earlier part : List OneLine) → AreEnded earlier ended.old → AreDealt part devices.now → AreEnded (earlier ++ part) ended.new }
{
    for i in 0..ended.len() {
        ended[i] |= devices[i].ends();
    }
}
