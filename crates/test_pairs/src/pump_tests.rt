//! Both workers of a heartbeat's channel, by one call on this thread.
ghost use Rattle.std.specs.Prelude.{◌≡◌, length};
ghost use Rattle.contact.specs.declared.kind.DeviceKind.{DeviceKind as OneKind};
ghost use Rattle.worker_pair.specs.Pairs.{ArePair};
ghost use Rattle.worker_pair.specs.Plans.{AllCarried};

use crate::check::check;
use crate::only_seat::only_seat;
use bus_script::{Ask, Reply};
use contact::DeviceKind;
use device_any::DeviceSeat;
use device_wire::BufferLists;
use io_edge::NoGate;
use ring_seat::ChannelMem;
use std::alloc::AllocGlobal;
use std::process::Abort;
use util_ic::{BeatMachine, IcAsk};
use worker_pair::{ChannelPlan, GuestWorker, HostWorker, make_both, pump};
use worker_port::Ended;

// The heartbeats 7 and 8.
fn asks(rt: &(impl Abort + AllocGlobal)) -> Vec<Ask>
    ensures all { AllCarried OneKind.Beat result.items }
    ensures count { length result.items ≡ 2 }
{
    let asks = [
        Ask::Ic(IcAsk::Beat { seq: 7 }),
        Ask::Ic(IcAsk::Beat { seq: 8 }),
    ];
    Vec::from_array(rt.alloc(), asks).expect(rt, "memory")
}

// A host that asks for both, and a guest that serves them.
fn workers(rt: &(impl Abort + AllocGlobal)) -> (GuestWorker, HostWorker)
    ensures { ArePair result.0 result.1 }
{
    let alloc = rt.alloc();
    let (guest, host) = ChannelMem::make(alloc, 1, 0).expect(rt, "memory");
    let seat = only_seat(alloc, BeatMachine::make(), 2).expect(rt, "memory");
    let plan = ChannelPlan {
        relid: 1,
        kind: DeviceKind::Beat,
        sub: 0,
        subs: 0,
        window: 1,
        count: 2,
        lists: BufferLists::NONE,
        stop: None,
    };
    make_both(alloc, guest, host, DeviceSeat::Beat(seat), plan, asks(rt)).expect(rt, "memory")
}

// Whether this is the reply of a heartbeat, with this number.
fn has_seq(reply: &Reply, seq: u64) -> bool {
    match reply {
        Reply::Ic(answer) => answer.seq == seq,
        _ => false,
    }
}

#[test]
fn a_pair_is_pumped_until_both_have_ended(rt: HostRuntime) {
    let (guest, host) = workers(&rt);
    let (guest, host) = pump(&rt, guest, host, &NoGate);
    check(
        &rt,
        guest.ended == Ended::PeerMarked && host.ended == Ended::Marked,
    );
    check(
        &rt,
        guest.serials.as_slice() == [0, 1].as_slice() && host.replies.len() == 2,
    );
    check(
        &rt,
        has_seq(&host.replies[0], 8) && has_seq(&host.replies[1], 9),
    );
    drop(guest);
    drop(host);
}
