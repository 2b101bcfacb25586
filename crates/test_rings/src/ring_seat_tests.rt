//! Both ends of a channel, on one thread and on two.
ghost use Rattle.ring_machine.specs.declared.machine.Stage.TheVariants.{Idle};
ghost use Rattle.ring_seat.specs.Settling.{AreOfOneChannel, IsSameEnd};

use crate::check::check;
use crate::packet::packet;
use ring_core::{Armed, End, Room, SendRefusal, Signalled, TakeRefusal, may_send, may_take};
use ring_seat::{ChannelMem, GuestEnd, HostEnd, Settled, TableSeat, finish};
use std::alloc::AllocGlobal;
use std::process::Abort;
use std::sync::Wait;
use std::thread::{join, sleep};
use std::time::{Clock, Duration};

// The same end, with room for so many packets.
fn with_room(rt: &impl Abort, mut e: End<TableSeat>, packets: u64) -> End<TableSeat>
    ensures { IsSameEnd e result }
{
    let room = Room {
        packets,
        words: 8192,
    };
    e.reserve(room, room).expect(rt, "memory");
    e
}

// Both ends of a new channel of one page, with room for so many packets.
fn opened(rt: &(impl Abort + AllocGlobal), packets: u64) -> (GuestEnd, HostEnd)
    ensures { AreOfOneChannel result.0 result.1 }
{
    let (guest, host) = ChannelMem::make(rt.alloc(), 1, 0).expect(rt, "memory");
    (with_room(rt, guest, packets), with_room(rt, host, packets))
}

// A send, where it may be called.
fn send(e: &mut End<TableSeat>, p: &[u64]) -> Option<Result<Signalled, SendRefusal>>
    ensures { IsSameEnd e.old e.new }
{
    if !may_send(e, p) {
        return None;
    }
    Some(e.send(p))
}

// Whether a take may be called, and gives these words.
fn takes(e: &mut End<TableSeat>, want: &[u64]) -> bool
    ensures { IsSameEnd e.old e.new }
{
    if !may_take(e) {
        return false;
    }
    match e.take() {
        Ok(taken) => taken.words() == want,
        Err(_) => false,
    }
}

// Whether a take may be called, and finds no packet.
fn finds_none(e: &mut End<TableSeat>) -> bool
    ensures { IsSameEnd e.old e.new }
{
    if !may_take(e) {
        return false;
    }
    match e.take() {
        Ok(_) => false,
        Err(refusal) => matches!(refusal, TakeRefusal::Empty { .. }),
    }
}

// Gives back what was taken, arms the signal, and sleeps where there is nothing to do. Where the end wants room it is for three cells.
fn rest<R: Wait>(rt: &R, e: &mut End<TableSeat>, wants: bool)
    ensures { IsSameEnd e.old e.new }
{
    if !e.is_ready() || e.is_due() || e.cells() < 4 {
        return;
    }
    e.commit();
    let want = if wants { Some(24) } else { None };
    let armed = e.arm(want);
    if matches!(armed, Armed::Asleep) && e.is_asleep() {
        ring_sleep::sleep(e, rt);
    }
}

// Sends this packet so many times.
fn send_all<R: Wait>(rt: &R, mut e: GuestEnd, p: &[u64], count: u64) -> GuestEnd
    ensures { IsSameEnd e result }
{
    let mut left = count;
    for _ in rt.forever() {
        if left == 0 {
            return e;
        }
        match send(&mut e, p) {
            None => return e,
            Some(Ok(_)) => left -= 1,
            Some(Err(_)) => rest(rt, &mut e, true),
        }
    }
    unreachable!()
}

// Takes so many packets.
fn take_all<R: Wait>(rt: &R, mut e: HostEnd, p: &[u64], count: u64) -> HostEnd
    ensures { IsSameEnd e result }
{
    let mut left = count;
    for _ in rt.forever() {
        if left == 0 || !may_take(&e) {
            return e;
        }
        if takes(&mut e, p) {
            left -= 1;
        } else {
            rest(rt, &mut e, false);
        }
    }
    unreachable!()
}

fn has_all(settled: &Settled, p: &[u64], count: usize) -> bool {
    settled.guest_sent().len() == count
        && settled.host_got().len() == count
        && settled.host_got().get(0) == Some(p)
        && settled.host_sent().len() == 0
        && settled.guest_got().len() == 0
}

#[test]
fn a_full_ring_refuses_a_second_packet(rt: HostRuntime) {
    let (mut guest, mut host) = opened(&rt, 8);
    let long = packet(&rt, 510, 7);
    let short = packet(&rt, 2, 9);
    let full = Some(Err(SendRefusal::Full { free: 8, need: 24 }));
    check(
        &rt,
        send(&mut guest, long.as_slice()) == Some(Ok(Signalled::Quiet)),
    );
    check(&rt, send(&mut guest, short.as_slice()) == full);
    check(&rt, takes(&mut host, long.as_slice()));
    check(&rt, finds_none(&mut host));
    let settled = finish(guest, host);
    check(&rt, has_all(&settled, long.as_slice(), 1));
}

#[test]
fn packets_cross_between_threads(rt: HostRuntime) {
    let (guest, host) = opened(&rt, 1000);
    let p = packet(&rt, 2, 9);
    let words = p.as_slice();
    let run = &rt;
    let (guest, host) = join(
        run,
        move || -> GuestEnd
            ensures { IsSameEnd guest result }
        { send_all(run, guest, words, 1000) },
        move || -> HostEnd
            ensures { IsSameEnd host result }
        { take_all(run, host, words, 1000) },
    );
    let settled = finish(guest, host);
    check(&rt, has_all(&settled, words, 1000));
}

// Sleeps until the peer raises the signal: long after it has spun, so that its thread is parked by then.
fn sleep_parked<R: Wait>(rt: &R, mut e: HostEnd) -> HostEnd
    ensures { IsSameEnd e result }
{
    rest(rt, &mut e, false);
    e
}

// Marks itself after a tenth of a second, which raises the peer's signal.
fn mark_late(clock: &impl Clock, mut e: GuestEnd) -> GuestEnd
    ensures { IsSameEnd e result }
{
    sleep(clock, Duration::from_millis(100));
    if e.is_ready() && !e.is_due() {
        e.mark();
    }
    e
}

// A raise ends the sleep of a thread that is parked: if it didn't wake it, this would wait for ever.
#[test]
fn a_raise_wakes_a_parked_thread(rt: HostRuntime) {
    let (guest, host) = opened(&rt, 1);
    let run = &rt;
    let (guest, host) = join(
        run,
        move || -> GuestEnd
            ensures { IsSameEnd guest result }
        { mark_late(run, guest) },
        move || -> HostEnd
            ensures { IsSameEnd host result }
        { sleep_parked(run, host) },
    );
    check(&rt, guest.is_marked() && host.is_ready());
    drop(guest);
    drop(host);
}
