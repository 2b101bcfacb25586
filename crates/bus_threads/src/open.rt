//! A channel is opened with its two workers.
ghost use Rattle.std.specs.Prelude.{◌≡◌, ◌≤◌, ◌*◌, [], length, IfOk};
ghost use Rattle.worker_pair.specs.Pairs.{ArePair, pages_on};
ghost use Rattle.worker_pair.specs.Plans.{AllCarried, CanStop, stop_of};
ghost use Rattle.device_any.specs.Seats.{served_at, kind_at, left_at};
ghost use Rattle.bus_threads.specs.Pairs.{AreOnChannel, Opens, lists_of};

use crate::Pair;
use bus_script::Ask;
use chan_state::Stop;
use contact::DeviceKind;
use device_any::DeviceSeat;
use device_wire::BufferLists;
use ring_seat::ChannelMem;
use std::alloc::{AllocError, Global};
use worker_pair::{ChannelPlan, GuestWorker, HostWorker, make_both};

// A pair of two workers of one channel.
fn paired(guest: GuestWorker, host: HostWorker) -> Pair
    requires { ArePair guest host }
    ensures { (result.guest ≡ guest) × (result.host ≡ host) }
{
    Pair { guest, host }
}

// How many data pages a channel of this kind has, on which so many requests can be open: one for each of a disk's, whose data stands in them, and all 128 of a network's, whose messages do.
fn data_pages(kind: DeviceKind, window: u32) -> u32
    ensures value { result ≡ pages_on kind window }
    ensures most { window ≤ 128 → result ≤ 128 }
{
    match kind {
        DeviceKind::Disk => window,
        DeviceKind::Net => 128,
        _ => 0,
    }
}

/// Opens a channel whose rings have so many pages, with its two workers, and takes all memory that they need. `sub` is its number among the channels of its
/// device, of which `subs` are beside the first one: that one asks for them at the end of its start-up, and a sub-channel has no start-up. The end that serves stops where this says,
/// which the channel of a disk or of a network alone can. On a network's channel the guest tells these page lists of its buffers.
pub fn open_pair(
    alloc: Global,
    kind: DeviceKind,
    relid: u32,
    sub: u16,
    subs: u32,
    pages: u32,
    window: u32,
    seat: DeviceSeat,
    asks: Vec<Ask>,
    stop: Option<Stop>,
    lists: BufferLists,
) -> Result<Pair, AllocError>
    requires kind { kind_at seat ≡ kind }
    requires stop { CanStop kind (stop_of stop) }
    requires subs { subs ≤ 3 }
    requires pages { (1 ≤ pages) × (pages ≤ 16) }
    requires window { (1 ≤ window) × (window ≤ 64) }
    requires few { length asks.items ≤ 4096 }
    requires asks { AllCarried kind asks.items }
    requires fresh { served_at seat ≡ [] }
    requires left { length asks.items ≤ left_at seat }
    ensures opens { IfOk result (Opens (record { kind = kind; sub = sub; subs = subs; asks = asks.items; stop = stop_of stop }) seat) }
    ensures lists { IfOk result (λ p. lists_of p ≡ lists) }
    ensures channel { IfOk result (AreOnChannel relid (512 * pages) (pages_on kind window) window) }
{
    let plan = ChannelPlan {
        relid,
        kind,
        sub,
        subs,
        window,
        count: asks.len() as u32,
        lists,
        stop,
    };
    let (guest, host) = ChannelMem::make(alloc, pages, data_pages(kind, window))?;
    let (guest, host) = make_both(alloc, guest, host, seat, plan, asks)?;
    Ok(paired(guest, host))
}
