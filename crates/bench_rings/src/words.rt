//! Two ends on atomic words: in turn on one thread, and on two threads.
ghost use Rattle.std.specs.Prelude.{◌≤◌, ℕ, length};
ghost use Rattle.ring_machine.specs.Endings.{IsWant};
ghost use Rattle.ring_machine.specs.States.{IsPacket};

use crate::packet::{a_packet, room_for, send, take};
use ring_core::{Armed, End};
use ring_seat::{ChannelMem, GuestEnd, HostEnd, TableSeat};
use ring_sleep::sleep;
use std::alloc::{AllocError, Global};
use std::io;
use std::rt::Runtime;
use std::sync::Wait;
use std::thread::{Threads, join};
use std::time::Instant;

// Makes room for so many of these packets at both ends.
fn reserve(g: &mut GuestEnd, h: &mut HostEnd, p: &[u64], count: u64) -> Result<(), AllocError> {
    let room = room_for(p, count);
    g.reserve(room, room)?;
    h.reserve(room, room)
}

// So many packets across atomic words on one thread, one at a time: how many arrived.
fn turns(g: &mut GuestEnd, h: &mut HostEnd, p: &[u64], count: u64) -> u64
    requires { IsPacket p.now }
{
    let mut took: u64 = 0;
    for _ in 0..count {
        if !send(g, p) {
            break;
        }
        if take(h) {
            took = took.wrapping_add(1);
        }
    }
    took
}

// The nanoseconds a packet of one round of these ends, with room for the packets made first.
fn timed<R: Runtime>(
    rt: &R,
    g: &mut GuestEnd,
    h: &mut HostEnd,
    p: &[u64],
    count: u64,
) -> io::Result<u128>
    requires { IsPacket p.now }
{
    reserve(g, h, p, count)?;
    let start = Instant::now(rt)?;
    let took = turns(g, h, p, count);
    a_packet(start.elapsed(rt)?.as_nanos(), took, count)
}

// The nanoseconds a packet of one round on atomic words and one thread. It is an error where a packet didn't arrive.
pub(crate) fn round<R: Runtime>(rt: &R, alloc: Global, p: &[u64], count: u64) -> io::Result<u128>
    requires { IsPacket p.now }
{
    let (mut g, mut h) = ChannelMem::make(alloc, 1, 0)?;
    let time = timed(rt, &mut g, &mut h, p, count);
    drop(g);
    drop(h);
    time
}

// The room that a sender of packets of so many words waits for.
fn room_of(words: usize) -> Option<u32>
    requires { (2 ≤ words) × (words ≤ 384) }
    ensures { (n : ℕ) → 512 ≤ n → IsWant n result }
{
    Some(8 * words as u32 + 8)
}

// Gives back what was taken, arms the signal, and sleeps where there is nothing to do.
fn rest<R: Wait>(rt: &R, e: &mut End<TableSeat>, want: Option<u32>)
    requires { (n : ℕ) → 512 ≤ n → IsWant n want }
{
    if !e.is_ready() || e.is_due() || e.cells() < 512 {
        return;
    }
    e.commit();
    let armed = e.arm(want);
    if matches!(armed, Armed::Asleep) && e.is_asleep() {
        sleep(e, rt);
    }
}

// Sends this packet so many times: how often it was sent.
fn send_all<R: Wait>(rt: &R, mut e: GuestEnd, p: &[u64], count: u64) -> u64
    requires packet { IsPacket p.now }
    requires few { length p.now ≤ 384 }
{
    let want = room_of(p.len());
    let mut sent = 0;
    for _ in rt.forever() {
        if sent >= count {
            drop(e);
            return sent;
        }
        if send(&mut e, p) {
            sent += 1;
        } else {
            rest(rt, &mut e, want);
        }
    }
    unreachable!()
}

// Takes so many packets: how many came.
fn take_all<R: Wait>(rt: &R, mut e: HostEnd, count: u64) -> u64 {
    let mut took = 0;
    for _ in rt.forever() {
        if took >= count {
            drop(e);
            return took;
        }
        if take(&mut e) {
            took += 1;
        } else {
            rest(rt, &mut e, None);
        }
    }
    unreachable!()
}

// The nanoseconds a packet of one round on atomic words and two threads.
pub(crate) fn threads_round<R: Runtime + Threads + Wait + Sync>(
    rt: &R,
    alloc: Global,
    p: &[u64],
    count: u64,
) -> io::Result<u128>
    requires packet { IsPacket p.now }
    requires few { length p.now ≤ 384 }
{
    let (mut guest, mut host) = ChannelMem::make(alloc, 1, 0)?;
    if let Err(refused) = reserve(&mut guest, &mut host, p, count) {
        drop(guest);
        drop(host);
        return Err(refused.into());
    }
    let start = Instant::now(rt);
    let (sent, took) = join(
        rt,
        move || send_all(rt, guest, p, count),
        move || take_all(rt, host, count),
    );
    a_packet(start?.elapsed(rt)?.as_nanos(), took.min(sent), count)
}
