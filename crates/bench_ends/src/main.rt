//! Times the end that keeps each packet, on atomic words. Its words say what is timed; then come numbers, in this order: how many packets or calls a round has, how many rounds, the bytes of a packet,
//! the window. Figures go to standard error, in picoseconds. Without a word everything is timed in small.
//!
//!     turns COUNT ROUNDS BYTES                  a packet on one thread, the least of all rounds
//!     window COUNT 1 BYTES WINDOW               a request on two threads, and how many signals were raised
//!     ping spins|sleeps|parks COUNT 1 BYTES     there and back on two threads, in nanoseconds: the median, the 99th of 100, the worst
//!     calls COUNT ROUNDS                        an empty take, a poll, a wake-up with its packet, a send into a full ring
//!     bad COUNT ROUNDS                          a stop at an index in no form
//!     space COUNT 1 BYTES                       nothing is timed: two ends keep so many packets each
#![tactic(auto)]

mod bad;

use bench_end_adapter::{EndPort, roomy};
use bench_end_loops::{Part, Wanted, across, words};
use bench_times::tell;
use std::alloc::Global;
use std::rt::Runtime;
use std::sync::Wait;
use std::thread::Threads;
use std::{env, io};

fn tell_bad<R: Runtime>(rt: &R, alloc: Global, w: Wanted) -> io::Result<()> {
    let mut best = u128::MAX;
    for _ in 0..w.rounds {
        best = best.min(bad::round(rt, alloc, w.count)?);
    }
    eprintln!(rt; "bad {best}")
}

// Both ends keep so many packets.
fn tell_space<R: Runtime>(rt: &R, alloc: Global, w: Wanted) -> io::Result<()> {
    let p = words(alloc, w.bytes / 8)?;
    let (mut g, mut h) = roomy(alloc, p.len() as u64, w.count)?;
    let kept = across(&mut g, &mut h, &p, w.count);
    eprintln!(rt; "space {kept}")
}

// Tells each part, in small.
fn tell_all<R: Runtime + Threads + Wait + Sync>(
    rt: &R,
    alloc: Global,
    w: Wanted,
) -> io::Result<()> {
    for part in [Part::Turns, Part::Window, Part::Ping, Part::Calls] {
        tell::<R, EndPort>(rt, alloc, Wanted { part, ..w })?;
    }
    tell_bad(rt, alloc, w)?;
    tell_space(rt, alloc, w)
}

fn main(rt: HostRuntime) -> io::Result<()> {
    let alloc = rt.alloc();
    let mut w = Wanted::small();
    for word in env::args(&rt)?.skip(1) {
        w.read(&word);
    }
    match w.part {
        Part::All => tell_all(&rt, alloc, w),
        Part::Bad => tell_bad(&rt, alloc, w),
        Part::Space => tell_space(&rt, alloc, w),
        _ => tell::<_, EndPort>(&rt, alloc, w),
    }
}
