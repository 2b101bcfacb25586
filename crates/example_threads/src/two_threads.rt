//! A channel whose ends stand on two threads: what came is the front of what went, whatever order their steps fell in.
ghost use Rattle.std.specs.Prelude.{IfOk};
ghost use Rattle.channel_trace.specs.Runs.{IsFront};
ghost use Rattle.ring_machine.specs.declared.machine.Stage.TheVariants.{Idle};
ghost use Rattle.ring_seat.specs.Settling.{AreOfOneChannel, IsSameEnd};

use ring_core::{Armed, End, Room, may_send, may_take};
use ring_seat::{ChannelMem, GuestEnd, HostEnd, Settled, TableSeat, finish};
use ring_sleep::sleep;
use std::alloc::{AllocError, Global};
use std::sync::Wait;
use std::thread::{Threads, join};

// Makes this room at both ends, for packets that are sent, and for those that come.
fn reserve(guest: &mut GuestEnd, host: &mut HostEnd, room: Room) -> Result<(), AllocError>
    ensures guest { IsSameEnd guest.old guest.new }
    ensures host { IsSameEnd host.old host.new }
{
    guest.reserve(room, room)?;
    host.reserve(room, room)
}

// Both ends of a new channel with rings of one page, with this room.
fn opened(alloc: Global, room: Room) -> Result<(GuestEnd, HostEnd), AllocError>
    ensures { IfOk result (λ ends. AreOfOneChannel ends.0 ends.1) }
{
    let (mut guest, mut host) = ChannelMem::make(alloc, 1, 0)?;
    reserve(&mut guest, &mut host, room)?;
    Ok((guest, host))
}

// Gives back what was taken, arms the signal, and sleeps where there is nothing to do. An end that wants room waits until its ring is all but empty.
fn rest<R: Wait>(rt: &R, e: &mut End<TableSeat>, wants: bool)
    ensures { IsSameEnd e.old e.new }
{
    if !e.is_ready() || e.is_due() || e.cells() < 512 {
        return;
    }
    e.commit();
    let want = if wants { Some(4080) } else { None };
    let armed = e.arm(want);
    if matches!(armed, Armed::Asleep) && e.is_asleep() {
        sleep(e, rt);
    }
}

// Sends this packet so many times, and sleeps where there is no room.
fn send_all<R: Wait>(rt: &R, mut e: GuestEnd, p: &[u64], count: u64) -> GuestEnd
    ensures { IsSameEnd e result }
{
    let mut left = count;
    for _ in rt.forever() {
        if left == 0 || !may_send(&e, p) {
            return e;
        }
        match e.send(p) {
            Ok(_) => left -= 1,
            Err(_) => rest(rt, &mut e, true),
        }
    }
    unreachable!()
}

// Takes so many packets, and sleeps where there is none.
fn take_all<R: Wait>(rt: &R, mut e: HostEnd, count: u64) -> HostEnd
    ensures { IsSameEnd e result }
{
    let mut left = count;
    for _ in rt.forever() {
        if left == 0 || !may_take(&e) {
            return e;
        }
        match e.take_in() {
            Ok(()) => left -= 1,
            Err(_) => rest(rt, &mut e, false),
        }
    }
    unreachable!()
}

/// A guest sends this packet so many times from a thread of its own, and a host takes as many on another one: what both ends sent and got. Words that are no packet, or
/// none that fits, aren't sent. The refusal is want of memory.
pub fn carry<R: Threads + Wait + Sync>(
    rt: &R,
    alloc: Global,
    packet: &[u64],
    count: u64,
) -> Result<Settled, AllocError>
    ensures { IfOk result (λ s. IsFront s.host_got s.guest_sent × IsFront s.guest_got s.host_sent) }
{
    let room = Room {
        packets: count,
        words: count.saturating_mul(512),
    };
    let (guest, host) = opened(alloc, room)?;
    if !may_send(&guest, packet) {
        return Ok(finish(guest, host));
    }
    let (guest, host) = join(
        rt,
        move || -> GuestEnd
            ensures { IsSameEnd guest result }
        { send_all(rt, guest, packet, count) },
        move || -> HostEnd
            ensures { IsSameEnd host result }
        { take_all(rt, host, count) },
    );
    Ok(finish(guest, host))
}
