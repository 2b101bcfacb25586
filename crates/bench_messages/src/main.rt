//! Times of reading and writing messages. Its words are numbers: how many calls a round has, and how many rounds there are. A line on standard error says what was timed, the least picoseconds
//! a call, and how many thousandths of a byte a message has.
#![tactic(auto)]

mod clock;
mod control;
mod frame;

use std::alloc::Global;
use std::rt::Runtime;
use std::{env, io};

// The bytes of all messages.
fn length(samples: &[control::Sample]) -> u64 {
    let mut bytes: u64 = 0;
    for sample in samples {
        bytes = bytes.wrapping_add(sample.len() as u64);
    }
    bytes
}

fn tell_control<R: Runtime>(rt: &R, alloc: Global, count: u64, rounds: u64) -> io::Result<()> {
    let samples = control::samples(alloc)?;
    let mut messages = control::read(alloc, &samples)?;
    let bytes = length(&samples);
    let (mut reads, mut writes) = (u128::MAX, u128::MAX);
    for _ in 0..rounds {
        reads = reads.min(control::reads(rt, &samples, &mut messages, count)?);
        writes = writes.min(control::writes(rt, &messages, bytes, count)?);
    }
    let size = bytes.wrapping_mul(1000) / (messages.len() as u64).max(1);
    eprintln!(rt; "a control message read {reads} {size}")?;
    eprintln!(rt; "a control message written {writes} {size}")
}

fn tell_frame<R: Runtime>(rt: &R, count: u64, rounds: u64) -> io::Result<()> {
    let packet = frame::packet();
    let mut bytes = [0; 1600];
    let (mut reads, mut writes) = (u128::MAX, u128::MAX);
    for _ in 0..rounds {
        writes = writes.min(frame::writes(rt, &packet, &mut bytes, count)?);
        reads = reads.min(frame::reads(rt, &bytes, count)?);
    }
    let size = frame::BYTES * 1000;
    eprintln!(rt; "a Remote NDIS frame of 1,514 bytes read {reads} {size}")?;
    eprintln!(rt; "a Remote NDIS frame of 1,514 bytes written {writes} {size}")
}

fn main(rt: HostRuntime) -> io::Result<()> {
    let (mut count, mut rounds) = (100u64, 2u64);
    for (i, word) in env::args(&rt)?.skip(1).enumerate() {
        let n = word.parse().unwrap_or(1);
        if i == 0 {
            count = n;
        } else {
            rounds = n;
        }
    }
    tell_control(&rt, rt.alloc(), count, rounds)?;
    tell_frame(&rt, count, rounds)
}
