//! A data page's way from one end to the other and back, by two ends in turn on atomic words: as it is, and as a read, whose answer is stored into it.
use crate::packet::{lay, send, take};
use ring_core::Room;
use ring_seat::{ChannelMem, GuestEnd, HostEnd};
use std::alloc::{AllocError, Global};
use std::io;
use std::rt::Runtime;
use std::time::Instant;

// The words of a page.
const WORDS: u64 = 512;

// A request that lends the first page: one range of all its bytes.
const REQUEST: [u64; 5] = [0x5_0005_0009, 1, 0x1_0000_0000, 4096, 0];

// Its completion.
const COMPLETION: [u64; 2] = [0x2_0002_000b, 1];

// What the page brings back.
#[derive(Clone, Copy)]
pub(crate) enum Brings {
    // What it took out.
    TheSame,
    // What a read is answered with: the host stores all of its words.
    Answer,
}

// What a read is answered with.
const ANSWER: [u64; WORDS as usize] = [0x9e37_79b9_7f4a_7c15; WORDS as usize];

// The host stores what the page brings back, if it does: whether the page may come back.
fn answer(h: &mut HostEnd, brings: Brings) -> bool {
    match brings {
        Brings::TheSame => true,
        Brings::Answer => lay(h, &COMPLETION, &ANSWER),
    }
}

// The page goes out and comes back: whether it did.
fn trip(g: &mut GuestEnd, h: &mut HostEnd, brings: Brings) -> bool {
    send(g, &REQUEST) && take(h) && answer(h, brings) && send(h, &COMPLETION) && take(g)
}

// So many trips: how many came to their end.
fn trips(g: &mut GuestEnd, h: &mut HostEnd, brings: Brings, count: u64) -> u64 {
    let mut back: u64 = 0;
    for _ in 0..count {
        if trip(g, h, brings) {
            back = back.wrapping_add(1);
        }
    }
    back
}

// Room for the packets of so many trips, with their page words.
fn room_for(count: u64) -> Room {
    Room {
        packets: count.saturating_add(1),
        words: count.wrapping_mul(WORDS + 8).wrapping_add(2 * WORDS),
    }
}

// The nanoseconds a trip, where each came to its end.
fn a_trip(time: u128, back: u64, count: u64) -> io::Result<u128> {
    if back != count || count == 0 {
        return Err(io::Error::other("a page was lost"));
    }
    Ok(time / count as u128)
}

// Makes room for so many trips at both ends.
fn reserve(g: &mut GuestEnd, h: &mut HostEnd, count: u64) -> Result<(), AllocError> {
    let room = room_for(count);
    g.reserve(room, room)?;
    h.reserve(room, room)
}

// The nanoseconds a trip of these ends, with room made first.
fn timed<R: Runtime>(
    rt: &R,
    g: &mut GuestEnd,
    h: &mut HostEnd,
    brings: Brings,
    count: u64,
) -> io::Result<u128> {
    reserve(g, h, count)?;
    let start = Instant::now(rt)?;
    let back = trips(g, h, brings, count);
    a_trip(start.elapsed(rt)?.as_nanos(), back, count)
}

/// The nanoseconds a trip of one round: two packets, a load of the page's 4,096 bytes at either end, and a store of as many where the page brings an answer
/// back. It is an error where a page didn't come back.
pub(crate) fn round<R: Runtime>(
    rt: &R,
    alloc: Global,
    brings: Brings,
    count: u64,
) -> io::Result<u128> {
    let (mut g, mut h) = ChannelMem::make(alloc, 1, 1)?;
    let time = timed(rt, &mut g, &mut h, brings, count);
    drop(g);
    drop(h);
    time
}
