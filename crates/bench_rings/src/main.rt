//! Times a send, a take and a commit: by two ends in turn over one memory, by two ends in turn on atomic words, and by two ends on atomic words in two threads.
//! And a data page's way out and back, by two ends in turn, and a read's. It writes nothing on standard output, and its figures on standard error.
#![tactic(auto)]

ghost use Rattle.std.specs.Prelude.{◌≤◌, length};
ghost use Rattle.ring_machine.specs.States.{IsPacket};

mod memory;
mod packet;
mod pages;
mod words;

use packet::{MOST, words};
use pages::Brings;
use ring_core::is_packet;
use std::alloc::Global;
use std::io;
use std::rt::Runtime;
use std::sync::Wait;
use std::thread::Threads;

// How often each size is timed. The quickest round is told.
const ROUNDS: u32 = 15;

// How often the page goes out and comes back in a round.
const TRIPS: u64 = 400;

// How the ends of a channel stand.
#[derive(Clone, Copy)]
enum Over {
    OneMemory,
    AtomicWords,
    Threads,
}

// The quickest of all rounds.
fn quickest<R: Runtime + Threads + Wait + Sync>(
    rt: &R,
    alloc: Global,
    over: Over,
    p: &[u64],
    count: u64,
) -> io::Result<u128>
    requires packet { IsPacket p.now }
    requires few { length p.now ≤ 384 }
{
    let mut best = u128::MAX;
    for _ in 0..ROUNDS {
        let time = match over {
            Over::OneMemory => memory::round(rt, alloc, p, count)?,
            Over::AtomicWords => words::round(rt, alloc, p, count)?,
            Over::Threads => words::threads_round(rt, alloc, p, count)?,
        };
        best = best.min(time);
    }
    Ok(best)
}

// The picoseconds a byte, of so many nanoseconds for so many bytes.
fn a_byte(time: u128, bytes: u128) -> u128 {
    time.wrapping_mul(1000) / bytes.max(1)
}

// Tells the times of such packets.
fn tell<R: Runtime + Threads + Wait + Sync>(
    rt: &R,
    alloc: Global,
    p: &[u64],
    count: u64,
) -> io::Result<()>
    requires packet { IsPacket p.now }
    requires few { length p.now ≤ 384 }
{
    let memory = quickest(rt, alloc, Over::OneMemory, p, count)?;
    let words = quickest(rt, alloc, Over::AtomicWords, p, count)?;
    let threads = quickest(rt, alloc, Over::Threads, p, count)?;
    let bytes = 8 * p.len();
    let byte = a_byte(words, bytes as u128);
    eprintln!(rt;
        "{bytes} bytes: {memory} ns a packet over one memory, {words} on atomic words, {threads} in two threads; {byte} ps a byte on atomic words"
    )
}

// The quickest way out and back of a page that brings this back.
fn quickest_page<R: Runtime>(rt: &R, alloc: Global, brings: Brings) -> io::Result<u128> {
    let mut best = u128::MAX;
    for _ in 0..ROUNDS {
        best = best.min(pages::round(rt, alloc, brings, TRIPS)?);
    }
    Ok(best)
}

// Tells the time of a page's way out and back, and that of a read.
fn tell_page<R: Runtime>(rt: &R, alloc: Global) -> io::Result<()> {
    let page = quickest_page(rt, alloc, Brings::TheSame)?;
    let byte = a_byte(page, 4096);
    let read = quickest_page(rt, alloc, Brings::Answer)?;
    let read_byte = a_byte(read, 4096);
    eprintln!(rt;
        "a page of 4096 bytes, sent, loaded, completed and loaded again: {page} ns on atomic words; {byte} ps a byte"
    )?;
    eprintln!(rt;
        "a read of 4096 bytes, sent, loaded, stored, completed and loaded again: {read} ns on atomic words; {read_byte} ps a byte"
    )
}

fn main(rt: HostRuntime) -> io::Result<()> {
    for (n, count) in [(3, 20000), (10, 10000), (64, 2000), (384, 400)] {
        let words = words(n as u64);
        let p = &words[..n.min(MOST)];
        if !is_packet(p) {
            return Err(io::Error::other("no packet was made"));
        }
        tell(&rt, rt.alloc(), p, count)?;
    }
    tell_page(&rt, rt.alloc())
}
