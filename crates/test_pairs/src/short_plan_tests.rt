//! A host's worker of a disk whose plan and seat are for one request fewer than its guest asks.
ghost use Rattle.std.specs.Prelude.{◌≡◌, ◌≤◌, None};
ghost use Rattle.worker_pair.specs.Workers.{IsLive};
ghost use Rattle.io_edge.specs.declared.side.Side.TheVariants.{Guest as GuestSide, Host as HostSide};
ghost use Rattle.ring_seat.specs.Whole.{new_paged};
ghost use Rattle.script_lines.specs.Requests.{CanBeCarried};

use crate::check::check;
use crate::only_seat::only_seat;
use bus_script::Ask;
use contact::DeviceKind;
use device_wire::BufferLists;
use io_edge::NoGate;
use ring_seat::{ChannelMem, GuestEnd, HostEnd};
use scsi_disk::{Chunk, Disk, DiskRequest};
use std::alloc::AllocGlobal;
use std::process::Abort;
use std::sync::Wait;
use worker_pair::{ChannelPlan, GuestSeat, GuestWorker, HostSeat, HostWorker};
use worker_port::{Ended, Turn};

// More turns than both workers take.
const MOST_TURNS: u32 = 1_000;

// Whether the disk is ready.
#[tactic(auto, unfolding(scsi_disk::specs::Commands::command_of))]
fn ready() -> DiskRequest
    ensures { CanBeCarried result }
{
    DiskRequest {
        cdb: [0; 16],
        out: Chunk::of(&[]),
    }
}

// A channel of a disk, as both workers have it but for the numbers of their requests.
const PLAN: ChannelPlan = ChannelPlan {
    relid: 1,
    kind: DeviceKind::Disk,
    sub: 0,
    subs: 0,
    window: 1,
    count: 0,
    lists: BufferLists::NONE,
    stop: None,
};

// A guest that asks three times.
fn guest_of(rt: &(impl Abort + AllocGlobal), end: GuestEnd, window: u32) -> GuestWorker
    requires window { (1 ≤ window) × (window ≤ 64) }
    requires end { end.state ≡ new_paged 512 window GuestSide }
    ensures { IsLive result }
{
    let alloc = rt.alloc();
    let asks = [Ask::Disk(ready()), Ask::Disk(ready()), Ask::Disk(ready())];
    let asks = Vec::from_array(alloc, asks).expect(rt, "memory");
    let plan = ChannelPlan {
        window,
        count: 3,
        ..PLAN
    };
    GuestWorker::make(alloc, end, GuestSeat::None, plan, asks).expect(rt, "memory")
}

// A host that serves two requests.
fn host_of(rt: &(impl Abort + AllocGlobal), end: HostEnd, window: u32) -> HostWorker
    requires window { (1 ≤ window) × (window ≤ 64) }
    requires end { end.state ≡ new_paged 512 window HostSide }
    ensures { IsLive result }
{
    let alloc = rt.alloc();
    let disk = Disk::make(alloc, 64, &[]).expect(rt, "memory");
    let seat = only_seat(alloc, disk, 2).expect(rt, "memory");
    let plan = ChannelPlan {
        window,
        count: 2,
        ..PLAN
    };
    HostWorker::make(alloc, end, HostSeat::Disk(seat), plan, Vec::new(alloc)).expect(rt, "memory")
}

// Both workers of one channel, which has a data page for each request that can be open.
fn workers(rt: &(impl Abort + AllocGlobal), window: u32) -> (GuestWorker, HostWorker)
    requires { (1 ≤ window) × (window ≤ 64) }
    ensures guest { IsLive result.0 }
    ensures host { IsLive result.1 }
{
    let (guest, host) = ChannelMem::make(rt.alloc(), 1, window).expect(rt, "memory");
    (guest_of(rt, guest, window), host_of(rt, host, window))
}

// How the guest's worker ends, where this turn is its last one.
#[tactic(auto, using(crate::proofs::Live::moved_live, crate::proofs::Live::idle_live))]
fn turn_guest(rt: &impl Wait, guest: &mut GuestWorker) -> Option<Ended>
    requires { IsLive guest.old }
    ensures { result ≡ None → IsLive guest.new }
{
    match guest.turn(rt, &NoGate) {
        Turn::Moved => None,
        Turn::Idle => None,
        Turn::Ended(how) => Some(how),
    }
}

// And the host's.
#[tactic(auto, using(crate::proofs::Live::moved_live, crate::proofs::Live::idle_live))]
fn turn_host(rt: &impl Wait, host: &mut HostWorker) -> Option<Ended>
    requires { IsLive host.old }
    ensures { result ≡ None → IsLive host.new }
{
    match host.turn(rt, &NoGate) {
        Turn::Moved => None,
        Turn::Idle => None,
        Turn::Ended(how) => Some(how),
    }
}

// How the host's worker ends while the guest's goes on.
fn host_ends(rt: &impl Wait, guest: &mut GuestWorker, host: &mut HostWorker) -> Option<Ended>
    requires guest { IsLive guest.old }
    requires host { IsLive host.old }
{
    for _ in 0..MOST_TURNS {
        if turn_guest(rt, guest).is_some() {
            return None;
        }
        let ended = turn_host(rt, host);
        if ended.is_some() {
            return ended;
        }
    }
    None
}

#[test]
fn a_short_plan_ends_for_want_of_room(rt: HostRuntime) {
    let (mut guest, mut host) = workers(&rt, 4);
    // Both calls of its seat are made, and the third request is still to be served.
    let ended = host_ends(&rt, &mut guest, &mut host);
    check(&rt, matches!(ended, Some(Ended::Room { left: 0, .. })));
    // Let go by a call: the proof of a drop at a block's end is minutes of work.
    drop(guest);
    drop(host);
}
