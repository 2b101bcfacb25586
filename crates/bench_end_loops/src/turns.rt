//! One thread: a packet is sent, taken and its room given back before the next one.
use crate::clock::a_call;
use crate::port::{Port, Sent, Took};
use std::io;
use std::rt::Runtime;
use std::time::Instant;

/// So many packets across: how many arrived.
pub fn across<P: Port>(g: &mut P, h: &mut P, p: &[u64], count: u64) -> u64 {
    let mut took: u64 = 0;
    for _ in 0..count {
        if matches!(g.send(p), Sent::Full | Sent::Refused) {
            return took;
        }
        if matches!(h.take(), Took::Quiet | Took::Raised) {
            took = took.wrapping_add(1);
        }
    }
    took
}

/// The picoseconds a packet of one round. It is an error where a packet didn't arrive.
pub fn turn_time<R: Runtime, P: Port>(
    rt: &R,
    g: &mut P,
    h: &mut P,
    p: &[u64],
    count: u64,
) -> io::Result<u128> {
    let start = Instant::now(rt)?;
    let took = across(g, h, p, count);
    a_call(start.elapsed(rt)?.as_nanos(), took, count)
}
