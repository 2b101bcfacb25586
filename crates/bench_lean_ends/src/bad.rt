//! A peer whose write index is in no form: the end stops.

use bench_end_loops::{BadSeat, a_call};
use ring_core::{Bad, Side, TakeRefusal};
use ring_lean_end::DriverEnd;
use std::alloc::{AllocError, Global};
use std::io;
use std::rt::Runtime;
use std::time::Instant;

// The bytes of a ring's data: 16 pages.
const RING: u32 = 65_536;

/// So many ends, each of a channel of its own.
pub(crate) fn ends(alloc: Global, count: u64) -> Result<Vec<DriverEnd<BadSeat>>, AllocError> {
    let mut ends = Vec::new(alloc);
    for _ in 0..count {
        ends.push(DriverEnd::make(alloc, Side::Host, RING, BadSeat)?)?;
    }
    Ok(ends)
}

// Each end takes: how many stopped.
fn stops(ends: &mut Vec<DriverEnd<BadSeat>>) -> u64 {
    let mut made: u64 = 0;
    for e in ends.iter_mut() {
        if e.is_asleep() || e.is_marked() {
            continue;
        }
        if matches!(e.take(), Err(TakeRefusal::Malformed(Bad::Index { .. }))) {
            made = made.wrapping_add(1);
        }
    }
    made
}

/// The picoseconds that it takes to stop. It is an error where an end didn't.
pub(crate) fn round<R: Runtime>(rt: &R, alloc: Global, count: u64) -> io::Result<u128> {
    let mut ends = ends(alloc, count)?;
    let start = Instant::now(rt)?;
    let made = stops(&mut ends);
    a_call(start.elapsed(rt)?.as_nanos(), made, count)
}
