//! The channels of a phase are opened.
ghost use Rattle.std.specs.Prelude.{◌≡◌, ◌+◌, ◌*◌, ◌<◌, ◌≤◌, ◌^◌, ◌++◌, ◌∷◌, [], List, All, length, sum, IfOk, OnOk};
ghost use Rattle.device_any.specs.Seats.{kind_at, served_at, left_at};
ghost use Rattle.bus_run.specs.Devices.{IsReady, Suits};
ghost use Rattle.device_any.specs.Boxes.{IsKept, box_log};
ghost use Rattle.device_any.specs.declared.device_box.DeviceBox.{DeviceBox as OneBox};
ghost use Rattle.bus_run.specs.Settings.{HasLimits};
ghost use Rattle.bus_run.specs.Opening.{AreAway, IsAway, CanOpenAll, IsOpenedWith, AllOpened, lists_on, order_with, quotas_of};

use crate::settings::Settings;
use bus_plan::ChannelOrder;
use bus_threads::{Pair, open_pair};
use contact::DeviceKind;
use control_path::ControlPath;
use device_any::{DeviceBox, DeviceSeat};
use device_wire::BufferLists;
use std::alloc::{AllocError, Global};

/// Puts the number of a channel's requests behind others, if it is a channel of this device.
fn add_quota(quotas: &mut Vec<u32>, device: u32, channel: &ChannelOrder) -> Result<(), AllocError>
    requires { length channel.now.asks.items ≤ 4096 }
    ensures { OnOk result (quotas.new.items ≡ quotas.old.items ++ quotas_of device (channel.now ∷ [])) }
{
    if channel.opening.device == device {
        quotas.push(channel.asks.len() as u32)?;
    }
    Ok(())
}

/// How many requests each channel of a device has in a phase, in order of relid.
fn quotas_of(alloc: Global, device: u32, plan: &[ChannelOrder]) -> Result<Vec<u32>, AllocError>
    requires { All (λ x. length x.asks.items ≤ 4096) plan.now }
    ensures { IfOk result (λ quotas. quotas.items ≡ quotas_of device plan.now) }
{
    let mut quotas = Vec::new(alloc);
    for channel in plan {
        add_quota(&mut quotas, device, channel)?;
    }
    Ok(quotas)
}

/// Opens a device's history again, with a seat for each of these channels of it, which have it from then on. Without a channel it stays.
fn share(alloc: Global, own: &mut DeviceBox, quotas: &[u32]) -> Result<(), AllocError>
    requires kept { IsKept own.old }
    requires few { length quotas.now < 2 ^ 32 }
    requires room { length (box_log own.old) + sum quotas.now < 2 ^ 32 }
    ensures { OnOk result (IsAway own.old quotas.now own.new) }
{
    if quotas.is_empty() {
        return Ok(());
    }
    own.share(alloc, quotas)
}

/// Opens the histories of all devices that a phase opens, with a seat for each channel.
pub fn share_all(
    alloc: Global,
    most: u32,
    plan: &[ChannelOrder],
    boxes: &mut Vec<DeviceBox>,
) -> Result<(), AllocError>
    requires can { CanOpenAll plan.now boxes.old.items }
    requires ready { All (IsReady (4096 * most)) boxes.old.items }
    requires most { most ≤ 20000 }
    requires few { length boxes.old.items ≤ 16 }
    ensures { OnOk result (AreAway plan.now boxes.old.items boxes.new.items) }
{
    for device in 0..boxes.len() {
        let quotas = quotas_of(alloc, device as u32, plan)?;
        share(alloc, &mut boxes[device], &quotas)?;
    }
    Ok(())
}

/// The page lists of a network's buffers, as the guest's control told the host's. A channel of another kind has none.
fn told_lists(kind: DeviceKind, path: &ControlPath, relid: u32) -> BufferLists
    ensures { result ≡ lists_on kind path.now.guest.posted relid }
{
    match kind {
        DeviceKind::Net => {
            let (receive, send) = path.last_lists(relid);
            BufferLists { receive, send }
        }
        _ => BufferLists::NONE,
    }
}

/// The two workers of a channel, with this seat of its device, which has so many channels beside the first one, and with the page lists of its buffers that the guest's control told. The device's end stops where the order says,
/// and the requests are moved to the end that asks.
fn open_channel(
    alloc: Global,
    settings: &Settings,
    subs: u32,
    channel: ChannelOrder,
    seat: DeviceSeat,
    path: &ControlPath,
) -> Result<Pair, AllocError>
    requires suits { Suits 4096 (order_with channel (kind_at seat) subs) }
    requires sub { channel.opening.sub ≤ 3 }
    requires subs { subs ≤ 3 }
    requires limits { HasLimits settings.now }
    requires fresh { served_at seat ≡ [] }
    requires left { left_at seat ≡ length channel.asks.items }
    ensures { IfOk result (IsOpenedWith path.now.guest.posted settings.now channel.opening.relid (order_with channel (kind_at seat) subs) seat) }
{
    let kind = seat.kind();
    let lists = told_lists(kind, path, channel.opening.relid);
    open_pair(
        alloc,
        kind,
        channel.opening.relid,
        channel.opening.sub as u16,
        subs,
        settings.pages,
        settings.window,
        seat,
        channel.asks,
        channel.stop,
        lists,
    )
}

/// Opens all channels of a phase, each with the next seat of its device, and with the page lists that the guest's control told for it.
pub fn open_all(
    alloc: Global,
    plan: Vec<ChannelOrder>,
    settings: &[Settings],
    boxes: &mut Vec<DeviceBox>,
    path: &ControlPath,
) -> Result<Vec<Pair>, AllocError>
    requires away { (old : List OneBox) × CanOpenAll plan.items old × AreAway plan.items old boxes.old.items }
    requires settings { length settings.now ≡ length boxes.old.items }
    requires limits { All HasLimits settings.now }
    ensures { IfOk result (λ pairs. (old : List OneBox) → CanOpenAll plan.items old → AreAway plan.items old boxes.old.items → AllOpened path.now.guest.posted settings.now plan.items old boxes.old.items boxes.new.items pairs.items) }
{
    let mut pairs = Vec::with_capacity(alloc, plan.len())?;
    for channel in plan {
        let at = channel.opening.device as usize;
        let own = &mut boxes[at];
        let subs = own.subs();
        let seat = own.take_first();
        let pair = open_channel(alloc, &settings[at], subs, channel, seat, path)?;
        pairs.push(pair)?;
    }
    Ok(pairs)
}
