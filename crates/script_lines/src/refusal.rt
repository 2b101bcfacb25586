//! Why a line is refused after the lines before it.
ghost use Rattle.std.specs.Prelude.{◌≡◌, ◌<◌, length, Option, Some, None, IfSome, slice_get, option_and_then, false};
ghost use Rattle.std.specs.Option.{option_map_or};
ghost use Rattle.script_lines.specs.Parts.{offered, blocks_at, has_ring, has_window, modified_here};
ghost use Rattle.script_lines.specs.Faults.{unless, device_said, says_settings, line_limit, ask_limit, has_room, count_limit, is_ended_before, own_order, order_fault, takes, is_rescindable, name_fault, is_rescinded_here, is_closed_here, is_bad, repeat_fault, offers_in_range, is_block, asks_in_range, asked_in_range, range_fault, row_fault};

use crate::DeviceSpec;
use crate::asked::Asked;
use crate::disk_ask::DiskAsk;
use crate::draft::Draft;
use crate::offering::Offering;
use crate::said::Said;
use crate::shape::shape_of;
use script_text::{Why6, within};

fn unless(holds: bool, why: Why6) -> Option<Why6>
    ensures { result ≡ unless holds why }
{
    if holds { None } else { Some(why) }
}

/// The device that a line speaks of, where one of its name was offered before.
pub fn device_said(before: &Draft, said: &Said) -> Option<u32>
    ensures device { result ≡ device_said before.now said.now }
    ensures within { IfSome result (λ d. d < length (offered before.now)) }
{
    match said {
        Said::Offer(name, _)
        | Said::Bad(name, _)
        | Said::Ring(name, _)
        | Said::Window(name, _)
        | Said::Request(name, _)
        | Said::Rescind(name, ..)
        | Said::Close(name)
        | Said::Modify(name, _) => before.device_of(name),
        Said::Nothing | Said::Contact(..) | Said::Phase => None,
    }
}

fn says_settings(said: &Said) -> bool
    ensures { result ≡ says_settings said.now }
{
    match said {
        Said::Contact(..) | Said::Offer(..) | Said::Bad(..) | Said::Ring(..) | Said::Window(..) =>
            true,
        _ => false,
    }
}

fn line_limit(number: u32) -> Option<Why6>
    ensures { result ≡ line_limit number }
{
    unless(number <= 20_000, Why6::Limit)
}

fn ask_limit(before: &Draft) -> Option<Why6>
    ensures { result ≡ ask_limit before.now }
{
    unless(before.asks() < 4096, Why6::Limit)
}

/// Whether the channels of what is offered and those before are 16 at most. A disk has those that
/// its line says beside its first one.
fn has_room(before: &Draft, offering: Offering) -> bool
    ensures { result ≡ has_room before.now offering }
{
    match offering {
        Offering::Disk {
            blocks: _,
            subs: Some(subs),
        } => subs < 16 && u64::from(before.channels()) + 1 + subs <= 16,
        Offering::Disk {
            blocks: _,
            subs: None,
        } => false,
        Offering::Plain(spec) => {
            u64::from(before.channels()) + 1 + u64::from(shape_of(spec).subs) <= 16
        }
    }
}

fn count_limit(before: &Draft, said: &Said) -> Option<Why6>
    ensures { result ≡ count_limit before.now said.now }
{
    match said {
        Said::Offer(_, offering) => unless(has_room(before, *offering), Why6::Limit),
        Said::Request(..) => ask_limit(before),
        _ => None,
    }
}

fn is_ended_before(before: &Draft, device: Option<u32>) -> bool
    requires { IfSome device (λ d. d < length (offered before.now)) }
    ensures { result ≡ option_map_or (is_ended_before before.now) device false }
{
    match device {
        Some(device) => before.is_ended_before(device),
        None => false,
    }
}

fn own_order(before: &Draft, device: Option<u32>, said: &Said) -> Option<Why6>
    requires { IfSome device (λ d. d < length (offered before.now)) }
    ensures { result ≡ own_order before.now device said.now }
{
    match said {
        Said::Contact(..) => unless(before.is_first(), Why6::Order),
        Said::Rescind(..) | Said::Close(..) => {
            unless(!is_ended_before(before, device), Why6::Order)
        }
        _ => None,
    }
}

fn order_fault(before: &Draft, device: Option<u32>, said: &Said) -> Option<Why6>
    requires { IfSome device (λ d. d < length (offered before.now)) }
    ensures { result ≡ order_fault before.now device said.now }
{
    unless(
        !says_settings(said) || before.is_all_settings(),
        Why6::Order,
    )
    .or(own_order(before, device, said))
}

fn spec_of(before: &Draft, device: Option<u32>) -> Option<DeviceSpec>
    requires { IfSome device (λ d. d < length (offered before.now)) }
    ensures { result ≡ option_and_then (slice_get (offered before.now)) device }
{
    match device {
        Some(device) => Some(before.spec_at(device)),
        None => None,
    }
}

/// Whether a device is of the kind that is asked this.
fn takes(asked: &Asked, spec: DeviceSpec) -> bool
    ensures { result ≡ takes asked.now spec }
{
    matches!(
        (asked, spec),
        (Asked::Beat(_), DeviceSpec::Beat)
            | (Asked::Down(_), DeviceSpec::Down)
            | (Asked::Command(_), DeviceSpec::Disk { .. })
            | (Asked::Message(_), DeviceSpec::Net { .. })
            | (Asked::Pair(_), DeviceSpec::Kvp)
    )
}

/// Whether a device can be rescinded: a disk or a network.
fn is_rescindable(spec: DeviceSpec) -> bool
    ensures { result ≡ is_rescindable spec }
{
    matches!(spec, DeviceSpec::Disk { .. } | DeviceSpec::Net { .. })
}

fn name_fault(before: &Draft, device: Option<u32>, said: &Said) -> Option<Why6>
    requires { IfSome device (λ d. d < length (offered before.now)) }
    ensures { result ≡ name_fault before.now device said.now }
{
    match said {
        Said::Ring(..) | Said::Window(..) | Said::Close(..) | Said::Modify(..) => {
            unless(device.is_some(), Why6::UnknownName)
        }
        Said::Bad(..) => {
            let spec = spec_of(before, device);
            unless(
                matches!(spec, Some(DeviceSpec::Disk { .. })),
                Why6::UnknownName,
            )
        }
        Said::Request(_, asked) => {
            let offered = match spec_of(before, device) {
                Some(spec) => takes(asked, spec),
                None => false,
            };
            unless(offered, Why6::UnknownName)
        }
        Said::Rescind(..) => {
            let offered = match spec_of(before, device) {
                Some(spec) => is_rescindable(spec),
                None => false,
            };
            unless(offered, Why6::UnknownName)
        }
        _ => None,
    }
}

fn is_bad(before: &Draft, device: Option<u32>, lba: Option<u64>) -> bool
    requires { IfSome device (λ d. d < length (offered before.now)) }
    ensures { result ≡ is_bad before.now device lba }
{
    match (device, lba) {
        (Some(device), Some(lba)) => before.has_bad(device, lba),
        _ => false,
    }
}

fn has_ring(before: &Draft, device: Option<u32>) -> bool
    requires { IfSome device (λ d. d < length (offered before.now)) }
    ensures { result ≡ option_map_or (λ d. has_ring d before.now) device false }
{
    match device {
        Some(device) => before.has_ring(device),
        None => false,
    }
}

fn has_window(before: &Draft, device: Option<u32>) -> bool
    requires { IfSome device (λ d. d < length (offered before.now)) }
    ensures { result ≡ option_map_or (λ d. has_window d before.now) device false }
{
    match device {
        Some(device) => before.has_window(device),
        None => false,
    }
}

fn is_rescinded_here(before: &Draft, device: Option<u32>) -> bool
    requires { IfSome device (λ d. d < length (offered before.now)) }
    ensures { result ≡ option_map_or (is_rescinded_here before.now) device false }
{
    match device {
        Some(device) => before.is_rescinded_here(device),
        None => false,
    }
}

fn is_closed_here(before: &Draft, device: Option<u32>) -> bool
    requires { IfSome device (λ d. d < length (offered before.now)) }
    ensures { result ≡ option_map_or (is_closed_here before.now) device false }
{
    match device {
        Some(device) => before.is_closed_here(device),
        None => false,
    }
}

fn is_modified_here(before: &Draft, device: Option<u32>) -> bool
    requires { IfSome device (λ d. d < length (offered before.now)) }
    ensures { result ≡ option_map_or (λ d. modified_here d before.now) device false }
{
    match device {
        Some(device) => before.is_modified_here(device),
        None => false,
    }
}

fn repeat_fault(before: &Draft, device: Option<u32>, said: &Said) -> Option<Why6>
    requires { IfSome device (λ d. d < length (offered before.now)) }
    ensures { result ≡ repeat_fault before.now device said.now }
{
    match said {
        Said::Offer(..) => unless(device.is_none(), Why6::Repeat),
        Said::Bad(_, lba) => unless(!is_bad(before, device, *lba), Why6::Repeat),
        Said::Ring(..) => unless(!has_ring(before, device), Why6::Repeat),
        Said::Window(..) => unless(!has_window(before, device), Why6::Repeat),
        Said::Rescind(..) => unless(!is_rescinded_here(before, device), Why6::Repeat),
        Said::Close(..) => unless(!is_closed_here(before, device), Why6::Repeat),
        Said::Modify(..) => unless(!is_modified_here(before, device), Why6::Repeat),
        _ => None,
    }
}

fn offers_in_range(offering: Offering) -> bool
    ensures { result ≡ offers_in_range offering }
{
    match offering {
        Offering::Disk { blocks, subs } => blocks.is_some() && within(0, 3, subs).is_some(),
        Offering::Plain(_) => true,
    }
}

/// How many blocks a device has.
fn blocks_at(before: &Draft, device: u32) -> u64
    requires { device < length (offered before.now) }
    ensures { result ≡ blocks_at device (offered before.now) }
{
    shape_of(before.spec_at(device)).blocks
}

fn is_block(before: &Draft, device: Option<u32>, lba: Option<u64>) -> bool
    requires { IfSome device (λ d. d < length (offered before.now)) }
    ensures { result ≡ is_block before.now device lba }
{
    match (device, lba) {
        (Some(device), Some(lba)) => lba < blocks_at(before, device),
        _ => false,
    }
}

fn asks_in_range(ask: DiskAsk) -> bool
    ensures { result ≡ asks_in_range ask }
{
    match ask {
        DiskAsk::Ready
        | DiskAsk::Inquiry
        | DiskAsk::Capacity
        | DiskAsk::LongCapacity
        | DiskAsk::Flush => true,
        DiskAsk::Read { lba, count } => lba.is_some() && count.is_some(),
        DiskAsk::Write {
            lba,
            count,
            byte: _,
        } => lba.is_some() && count.is_some(),
    }
}

fn asked_in_range(asked: &Asked) -> bool
    ensures { result ≡ asked_in_range asked.now }
{
    match asked {
        Asked::Beat(seq) => seq.is_some(),
        Asked::Down(flags) => flags.is_some(),
        Asked::Command(ask) => asks_in_range(*ask),
        Asked::Message(message) => message.is_some(),
        Asked::Pair(request) => request.is_some(),
    }
}

fn range_fault(before: &Draft, device: Option<u32>, said: &Said) -> Option<Why6>
    requires { IfSome device (λ d. d < length (offered before.now)) }
    ensures { result ≡ range_fault before.now device said.now }
{
    match said {
        Said::Contact(guest, host) => unless(guest.is_some() && host.is_some(), Why6::Range),
        Said::Offer(_, offering) => unless(offers_in_range(*offering), Why6::Range),
        Said::Bad(_, lba) => unless(is_block(before, device, *lba), Why6::Range),
        Said::Ring(_, number)
        | Said::Window(_, number)
        | Said::Rescind(_, number, _)
        | Said::Modify(_, number) => unless(number.is_some(), Why6::Range),
        Said::Request(_, asked) => unless(asked_in_range(asked), Why6::Range),
        _ => None,
    }
}

/// The first reason against a row that speaks of this device, after the lines before it. The
/// reasons come in the order Limit, Order, UnknownName, Repeat, Range.
pub fn row_fault(number: u32, before: &Draft, device: Option<u32>, said: &Said) -> Option<Why6>
    requires { IfSome device (λ d. d < length (offered before.now)) }
    ensures { result ≡ row_fault number before.now device said.now }
{
    line_limit(number)
        .or(count_limit(before, said))
        .or(order_fault(before, device, said))
        .or(name_fault(before, device, said))
        .or(repeat_fault(before, device, said))
        .or(range_fault(before, device, said))
}
