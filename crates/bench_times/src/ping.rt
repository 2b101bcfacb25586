//! Two threads: how long one packet takes there and its answer back.
use crate::rest::rest;
use crate::window::{Load, serve};
use bench_end_loops::{Port, Sent, Took};
use std::alloc::Global;
use std::io;
use std::rt::Runtime;
use std::sync::Wait;
use std::thread::{Threads, join};
use std::time::Instant;

/// Nanoseconds of the trips there and back.
#[derive(Clone, Copy)]
pub(crate) struct Latency {
    pub(crate) median: u64,
    pub(crate) most_of_a_hundred: u64,
    pub(crate) worst: u64,
}

// Waits for the answer: whether it came.
fn wait<R: Wait, P: Port>(rt: &R, e: &mut P, load: Load) -> bool {
    for _ in rt.forever() {
        match e.take() {
            Took::Quiet => return true,
            Took::Raised => return true,
            Took::Empty => rest(rt, e, load.how),
            Took::Refused => return false,
        }
    }
    unreachable!()
}

// One trip: its nanoseconds.
fn trip<R: Runtime + Wait, P: Port>(rt: &R, e: &mut P, p: &[u64], load: Load) -> io::Result<u64> {
    let start = Instant::now(rt)?;
    if matches!(e.send(p), Sent::Full | Sent::Refused) || !wait(rt, e, load) {
        return Err(io::Error::other("a packet was lost"));
    }
    let time = start.elapsed(rt)?.as_nanos();
    Ok(time.try_into().unwrap_or(u64::MAX))
}

// The guest's part.
fn trips<R: Runtime + Wait, P: Port + Drop>(
    rt: &R,
    mut e: P,
    p: &[u64],
    load: Load,
    times: &mut Vec<u64>,
) -> io::Result<()> {
    for time in times.iter_mut() {
        *time = trip(rt, &mut e, p, load)?;
    }
    Ok(())
}

// The time within which so many of a hundred trips were made, of sorted times.
fn within(times: &[u64], share: usize) -> u64 {
    let at = times.len().wrapping_mul(share) / 100;
    times.get(at).copied().unwrap_or(0)
}

// Of all trips.
fn sorted(times: &mut Vec<u64>) -> Latency {
    times.sort_unstable();
    Latency {
        median: within(times, 50),
        most_of_a_hundred: within(times, 99),
        worst: times.last().copied().unwrap_or(0),
    }
}

/// So many trips, one at a time.
pub(crate) fn round<R: Runtime + Threads + Wait + Sync, P: Port + Send + Drop>(
    rt: &R,
    alloc: Global,
    guest: P,
    host: P,
    p: &[u64],
    load: Load,
) -> io::Result<Latency> {
    let mut times = Vec::from_elem(alloc, 0u64, load.count as usize)?;
    let all = &mut times;
    let (served, made) = join(
        rt,
        move || serve(rt, host, load),
        move || trips(rt, guest, p, load, all),
    );
    made?;
    if served.got != load.count {
        return Err(io::Error::other("a packet was lost"));
    }
    Ok(sorted(&mut times))
}
