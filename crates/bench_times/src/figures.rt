//! The figures, on standard error.
use crate::ping::{self, Latency};
use crate::window::{self, Load};
use bench_end_loops::{Calls, Part, Port, Wanted, call_times, turn_time, words};
use std::alloc::Global;
use std::io;
use std::rt::Runtime;
use std::sync::Wait;
use std::thread::Threads;

// One round of a packet on one thread.
fn turn<R: Runtime, P: Port + Drop>(
    rt: &R,
    alloc: Global,
    w: Wanted,
    p: &[u64],
) -> io::Result<u128> {
    let (mut g, mut h) = P::pair(alloc, p.len() as u64, w.count)?;
    turn_time(rt, &mut g, &mut h, p, w.count)
}

fn tell_turns<R: Runtime, P: Port + Drop>(
    rt: &R,
    alloc: Global,
    w: Wanted,
    p: &[u64],
) -> io::Result<()> {
    let mut best = u128::MAX;
    for _ in 0..w.rounds {
        best = best.min(turn::<R, P>(rt, alloc, w, p)?);
    }
    eprintln!(rt; "turns {best}")
}

fn tell_window<R: Runtime + Threads + Wait + Sync, P: Port + Send + Drop>(
    rt: &R,
    alloc: Global,
    w: Wanted,
    p: &[u64],
) -> io::Result<()> {
    let load = Load {
        count: w.count,
        window: w.window,
        how: w.how,
    };
    let (g, h) = P::pair(alloc, p.len() as u64, w.count)?;
    let (time, raised) = window::round(rt, g, h, p, load)?;
    eprintln!(rt; "window {time} {raised}")
}

fn tell_ping<R: Runtime + Threads + Wait + Sync, P: Port + Send + Drop>(
    rt: &R,
    alloc: Global,
    w: Wanted,
    p: &[u64],
) -> io::Result<()> {
    let load = Load {
        count: w.count,
        window: 1,
        how: w.how,
    };
    let (g, h) = P::pair(alloc, p.len() as u64, w.count)?;
    let Latency {
        median,
        most_of_a_hundred,
        worst,
    } = ping::round(rt, alloc, g, h, p, load)?;
    eprintln!(rt; "ping {median} {most_of_a_hundred} {worst}")
}

// One round of the calls. A ring of 16 pages is full with fewer than 4,096 packets.
fn call<R: Runtime, P: Port + Drop>(rt: &R, alloc: Global, w: Wanted) -> io::Result<Calls> {
    let (mut g, mut h) = P::pair(alloc, 3, w.count.saturating_add(4096))?;
    call_times(rt, &mut g, &mut h, w.count)
}

fn tell_calls<R: Runtime, P: Port + Drop>(rt: &R, alloc: Global, w: Wanted) -> io::Result<()> {
    let mut best = call::<R, P>(rt, alloc, w)?;
    for _ in 1..w.rounds {
        best = best.least(call::<R, P>(rt, alloc, w)?);
    }
    let Calls {
        empty,
        poll,
        woken,
        full,
    } = best;
    eprintln!(rt; "calls {empty} {poll} {woken} {full}")
}

/// Tells the times of one part, in picoseconds, but of a way there and back in nanoseconds. Of a part that isn't of packets and calls it tells nothing.
pub fn tell<R: Runtime + Threads + Wait + Sync, P: Port + Send + Drop>(
    rt: &R,
    alloc: Global,
    w: Wanted,
) -> io::Result<()> {
    let p = words(alloc, w.bytes / 8)?;
    match w.part {
        Part::Turns => tell_turns::<R, P>(rt, alloc, w, &p),
        Part::Window => tell_window::<R, P>(rt, alloc, w, &p),
        Part::Ping => tell_ping::<R, P>(rt, alloc, w, &p),
        Part::Calls => tell_calls::<R, P>(rt, alloc, w),
        _ => Ok(()),
    }
}
