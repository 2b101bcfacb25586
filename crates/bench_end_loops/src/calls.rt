//! Calls that carry no packet, on one thread.
use crate::clock::a_call;
use crate::packet::ANSWER;
use crate::port::{Port, Sent, Took};
use std::io;
use std::rt::Runtime;
use std::time::Instant;

/// Picoseconds a call.
#[derive(Clone, Copy)]
pub struct Calls {
    /// A take from an empty ring.
    pub empty: u128,
    /// A poll of an end that is asleep, whose signal is down.
    pub poll: u128,
    /// An end falls asleep, a packet raises its signal, and it polls, takes and commits.
    pub woken: u128,
    /// A send into a full ring.
    pub full: u128,
}

impl Calls {
    /// The lesser time of each.
    pub fn least(self, other: Calls) -> Calls {
        Calls {
            empty: self.empty.min(other.empty),
            poll: self.poll.min(other.poll),
            woken: self.woken.min(other.woken),
            full: self.full.min(other.full),
        }
    }
}

fn empty_takes<P: Port>(e: &mut P, count: u64) -> u64 {
    let mut made: u64 = 0;
    for _ in 0..count {
        if matches!(e.take(), Took::Empty) {
            made = made.wrapping_add(1);
        }
    }
    made
}

fn polls<P: Port>(e: &mut P, count: u64) -> u64 {
    let mut made: u64 = 0;
    for _ in 0..count {
        if !e.poll() {
            made = made.wrapping_add(1);
        }
    }
    made
}

fn wakes<P: Port>(g: &mut P, h: &mut P, count: u64) -> u64 {
    let mut made: u64 = 0;
    for _ in 0..count {
        if h.arm()
            && matches!(g.send(&ANSWER), Sent::Raised)
            && h.poll()
            && matches!(h.take(), Took::Quiet | Took::Raised)
        {
            made = made.wrapping_add(1);
        }
    }
    made
}

// Fills the ring.
fn fill<P: Port>(e: &mut P, most: u64) {
    for _ in 0..most {
        if matches!(e.send(&ANSWER), Sent::Full | Sent::Refused) {
            return;
        }
    }
}

fn full_sends<P: Port>(e: &mut P, count: u64) -> u64 {
    let mut made: u64 = 0;
    for _ in 0..count {
        if matches!(e.send(&ANSWER), Sent::Full) {
            made = made.wrapping_add(1);
        }
    }
    made
}

/// The times of these ends of a new channel, of which none is asleep: so many calls each. It is an error where one doesn't end as is said above.
pub fn call_times<R: Runtime, P: Port>(
    rt: &R,
    g: &mut P,
    h: &mut P,
    count: u64,
) -> io::Result<Calls> {
    let start = Instant::now(rt)?;
    let made = empty_takes(h, count);
    let empty = a_call(start.elapsed(rt)?.as_nanos(), made, count)?;
    let start = Instant::now(rt)?;
    let made = wakes(g, h, count);
    let woken = a_call(start.elapsed(rt)?.as_nanos(), made, count)?;
    fill(g, 1_000_000);
    let start = Instant::now(rt)?;
    let made = full_sends(g, count);
    let full = a_call(start.elapsed(rt)?.as_nanos(), made, count)?;
    if !g.arm() {
        return Err(io::Error::other("an end doesn't sleep"));
    }
    let start = Instant::now(rt)?;
    let made = polls(g, count);
    let poll = a_call(start.elapsed(rt)?.as_nanos(), made, count)?;
    Ok(Calls {
        empty,
        poll,
        woken,
        full,
    })
}
