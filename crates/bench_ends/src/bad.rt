//! A peer whose write index is in no form: the end stops.

use bench_end_loops::{BadSeat, a_call};
use ring_core::{Bad, End, Room, Side, TakeRefusal, may_take};
use std::alloc::{AllocError, Global};
use std::io;
use std::rt::Runtime;
use std::time::Instant;

// The bytes of a ring's data: 16 pages.
const RING: u32 = 65_536;

const NO_ROOM: Room = Room {
    packets: 0,
    words: 0,
};

const ONE_PACKET: Room = Room {
    packets: 1,
    words: 8192,
};

// An end of a channel of its own, with room for one packet.
fn end(alloc: Global) -> Result<End<BadSeat>, AllocError> {
    let mut end = End::make(alloc, Side::Host, RING, BadSeat, 0)?;
    match end.reserve(NO_ROOM, ONE_PACKET) {
        Ok(()) => Ok(end),
        Err(refused) => {
            drop(end);
            Err(refused)
        }
    }
}

// So many ends.
fn ends(alloc: Global, count: u64) -> Result<Vec<End<BadSeat>>, AllocError> {
    let mut ends = Vec::new(alloc);
    for _ in 0..count {
        ends.push(end(alloc)?)?;
    }
    Ok(ends)
}

// Each end takes: how many stopped.
fn stops(ends: &mut Vec<End<BadSeat>>) -> u64 {
    let mut made: u64 = 0;
    for e in ends.iter_mut() {
        if may_take(e) && matches!(e.take_in(), Err(TakeRefusal::Malformed(Bad::Index { .. }))) {
            made = made.wrapping_add(1);
        }
    }
    made
}

/// The picoseconds that it takes to stop. It is an error where an end didn't.
pub(crate) fn round<R: Runtime>(rt: &R, alloc: Global, count: u64) -> io::Result<u128> {
    let mut ends = ends(alloc, count)?;
    let start = Instant::now(rt)?;
    let made = stops(&mut ends);
    a_call(start.elapsed(rt)?.as_nanos(), made, count)
}
