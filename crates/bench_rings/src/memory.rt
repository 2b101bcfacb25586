//! Two ends in turn over one memory.
ghost use Rattle.ring_machine.specs.States.{IsPacket};

use crate::packet::{a_packet, room_for, send, take};
use ring_core::{End, Side, SoloMem};
use std::alloc::{AllocError, Global};
use std::io;
use std::rt::Runtime;
use std::time::Instant;

// Exchanges the memories of two ends whose rings have one size, and whose channels have as many data pages.
fn swap(g: &mut End<SoloMem>, h: &mut End<SoloMem>) {
    if g.cells() == h.cells() && g.pages() == h.pages() {
        g.swap_memory(h);
    }
}

// So many packets across, one at a time: how many arrived.
fn turns(g: &mut End<SoloMem>, h: &mut End<SoloMem>, p: &[u64], count: u64) -> u64
    requires { IsPacket p.now }
{
    let mut took: u64 = 0;
    for _ in 0..count {
        if !send(g, p) {
            break;
        }
        swap(g, h);
        if take(h) {
            took = took.wrapping_add(1);
        }
        swap(g, h);
    }
    took
}

// An end over a memory of one page.
fn end(alloc: Global, side: Side) -> Result<End<SoloMem>, AllocError> {
    let solo = SoloMem::make(alloc, 4096, 0)?;
    End::make(alloc, side, 4096, solo, 0)
}

// The nanoseconds a packet of one round of these ends, with room for the packets made first.
fn timed<R: Runtime>(
    rt: &R,
    g: &mut End<SoloMem>,
    h: &mut End<SoloMem>,
    p: &[u64],
    count: u64,
) -> io::Result<u128>
    requires { IsPacket p.now }
{
    let room = room_for(p, count);
    g.reserve(room, room)?;
    h.reserve(room, room)?;
    let start = Instant::now(rt)?;
    let took = turns(g, h, p, count);
    a_packet(start.elapsed(rt)?.as_nanos(), took, count)
}

// The nanoseconds a packet of one round, from this end.
fn round_from<R: Runtime>(
    rt: &R,
    alloc: Global,
    g: &mut End<SoloMem>,
    p: &[u64],
    count: u64,
) -> io::Result<u128>
    requires { IsPacket p.now }
{
    let mut h = end(alloc, Side::Host)?;
    let time = timed(rt, g, &mut h, p, count);
    drop(h);
    time
}

// The nanoseconds a packet of one round. It is an error where a packet didn't arrive.
pub(crate) fn round<R: Runtime>(rt: &R, alloc: Global, p: &[u64], count: u64) -> io::Result<u128>
    requires { IsPacket p.now }
{
    let mut g = end(alloc, Side::Guest)?;
    let time = round_from(rt, alloc, &mut g, p, count);
    drop(g);
    time
}
