//! The workers of a heartbeat's channel, by their own calls.
ghost use Rattle.std.specs.Prelude.{◌≡◌};
ghost use Rattle.worker_pair.specs.Workers.{Caused, IsLive, Tried};
ghost use Rattle.io_edge.specs.declared.side.Side.TheVariants.{Guest as GuestSide, Host as HostSide};
ghost use Rattle.ring_seat.specs.Seats.{new_end};

use crate::check::check;
use crate::only_seat::only_seat;
use bus_script::{Ask, Reply};
use contact::DeviceKind;
use device_wire::BufferLists;
use io_edge::NoGate;
use ring_seat::{ChannelMem, GuestEnd, HostEnd};
use std::alloc::AllocGlobal;
use std::process::Abort;
use std::sync::Wait;
use std::thread::join;
use util_ic::{BeatMachine, IcAsk};
use worker_pair::{ChannelPlan, GuestSeat, GuestWorker, HostSeat, HostWorker};
use worker_port::{Ended, Turn};

// A channel of a heartbeat, with two requests.
const PLAN: ChannelPlan = ChannelPlan {
    relid: 1,
    kind: DeviceKind::Beat,
    sub: 0,
    subs: 0,
    window: 1,
    count: 2,
    lists: BufferLists::NONE,
    stop: None,
};

// A guest that serves two heartbeats.
fn guest_of(rt: &(impl Abort + AllocGlobal), end: GuestEnd) -> GuestWorker
    requires { end.state ≡ new_end 512 GuestSide }
    ensures { IsLive result }
{
    let alloc = rt.alloc();
    let seat = only_seat(alloc, BeatMachine::make(), 2).expect(rt, "memory");
    GuestWorker::make(alloc, end, GuestSeat::Beat(seat), PLAN, Vec::new(alloc)).expect(rt, "memory")
}

// A host that asks for the heartbeats 7 and 8.
fn host_of(rt: &(impl Abort + AllocGlobal), end: HostEnd) -> HostWorker
    requires { end.state ≡ new_end 512 HostSide }
    ensures { IsLive result }
{
    let alloc = rt.alloc();
    let asks = [
        Ask::Ic(IcAsk::Beat { seq: 7 }),
        Ask::Ic(IcAsk::Beat { seq: 8 }),
    ];
    let asks = Vec::from_array(alloc, asks).expect(rt, "memory");
    HostWorker::make(alloc, end, HostSeat::None, PLAN, asks).expect(rt, "memory")
}

// Both workers of one channel.
fn workers(rt: &(impl Abort + AllocGlobal)) -> (GuestWorker, HostWorker)
    ensures guest { IsLive result.0 }
    ensures host { IsLive result.1 }
{
    let (guest_end, host_end) = ChannelMem::make(rt.alloc(), 1, 0).expect(rt, "memory");
    (guest_of(rt, guest_end), host_of(rt, host_end))
}

// The sequence number of a heartbeat's reply.
fn seq_of(reply: &Reply) -> Option<u64> {
    match reply {
        Reply::Ic(answer) => Some(answer.seq),
        Reply::Disk(_) => None,
        Reply::Net { .. } => None,
        Reply::Kvp(_) => None,
    }
}

// The guest serves both, and ends after the host.
fn run_guest(rt: &(impl Wait + Abort), guest: GuestWorker)
    requires { IsLive guest }
{
    let done = guest.run(rt, &NoGate);
    check(rt, done.ended == Ended::PeerMarked);
    check(rt, done.serials.as_slice() == [0, 1].as_slice());
    check(rt, done.replies.is_empty());
    check(rt, matches!(done.seat, GuestSeat::Beat(_)));
    drop(done);
}

// The host has both replies, and ends.
fn run_host(rt: &(impl Wait + Abort), host: HostWorker)
    requires { IsLive host }
{
    let done = host.run(rt, &NoGate);
    check(rt, done.ended == Ended::Marked);
    check(rt, done.serials.is_empty());
    check(rt, done.replies.len() == 2);
    check(rt, seq_of(&done.replies[0]) == Some(8));
    check(rt, seq_of(&done.replies[1]) == Some(9));
    check(rt, matches!(done.seat, HostSeat::None));
    drop(done);
}

#[test]
fn workers_run_on_two_threads(rt: HostRuntime) {
    let (guest, host) = workers(&rt);
    let run = &rt;
    join(
        run,
        move ||
            requires { IsLive guest }
        { run_guest(run, guest) },
        move ||
            requires { IsLive host }
        { run_host(run, host) },
    );
}

// A turn of the guest.
fn turn_guest(rt: &impl Wait, guest: &mut GuestWorker) -> Turn
    requires { IsLive guest.old }
    ensures cause { Caused result guest.old guest.new }
    ensures tried { Tried result guest.old guest.new }
{
    guest.turn(rt, &NoGate)
}

// A turn of the host.
fn turn_host(rt: &impl Wait, host: &mut HostWorker) -> Turn
    requires { IsLive host.old }
    ensures cause { Caused result host.old host.new }
    ensures tried { Tried result host.old host.new }
{
    host.turn(rt, &NoGate)
}

#[test]
fn workers_take_turns(rt: HostRuntime) {
    let (mut guest, mut host) = workers(&rt);
    // The guest has nothing to serve yet, and falls asleep. The host sends its start-up.
    check(&rt, turn_guest(&rt, &mut guest) == Turn::Idle);
    check(&rt, turn_host(&rt, &mut host) == Turn::Moved);
    // Let go by a call: the proof of a drop at a block's end is minutes of work.
    drop(guest);
    drop(host);
}
