//! Control messages: one of each type.
use crate::clock::picoseconds;
use std::alloc::{AllocError, Global};
use std::io;
use std::rt::Runtime;
use std::time::Instant;
use vmbus_msg::{Msg, MsgFault, decode, encode};

// The types that there are.
const TYPES: u8 = 17;

/// The bytes of a message.
pub(crate) type Sample = Vec<u8>;

// What follows the type and the padding of a list of one page: its channel, its handle, 16 bytes of one range, and a whole page.
const LIST: [u8; 28] = [
    0, 0, 0, 0, 0, 0, 0, 0, 16, 0, 1, 0, 0, 16, 0, 0, 0, 0, 0, 0, 0, 0, 0, 0, 0, 0, 0, 0,
];

// The bytes with which a message of this type begins: its type, and of a list of pages its range.
fn begun(alloc: Global, kind: u8) -> Result<Sample, AllocError> {
    let mut bytes = Vec::new(alloc);
    for byte in [kind, 0, 0, 0, 0, 0, 0, 0] {
        bytes.push(byte)?;
    }
    if kind == 8 {
        for byte in LIST {
            bytes.push(byte)?;
        }
    }
    Ok(bytes)
}

// Makes the bytes as long as the reader asks: whether they are a message then.
fn lengthen(bytes: &mut Sample) -> Result<bool, AllocError> {
    for _ in 0..256 {
        match decode(bytes) {
            Ok(_) => return Ok(true),
            Err(MsgFault::Short { .. }) => bytes.push(0)?,
            Err(_) => return Ok(false),
        }
    }
    Ok(false)
}

/// One message of each type, whose other fields are 0.
pub(crate) fn samples(alloc: Global) -> Result<Vec<Sample>, AllocError> {
    let mut all = Vec::new(alloc);
    for kind in 1..TYPES + 1 {
        let mut bytes = begun(alloc, kind)?;
        if lengthen(&mut bytes)? {
            all.push(bytes)?;
        }
    }
    Ok(all)
}

/// The messages of these bytes.
pub(crate) fn read(alloc: Global, samples: &[Sample]) -> Result<Vec<Msg>, AllocError> {
    let mut all = Vec::new(alloc);
    for bytes in samples {
        if let Ok(message) = decode(bytes) {
            all.push(message)?;
        }
    }
    Ok(all)
}

// Reads each message once, into its place: how many were read.
fn read_again(samples: &[Sample], places: &mut [Msg]) -> u64 {
    let mut made: u64 = 0;
    for (bytes, place) in samples.iter().zip(places.iter_mut()) {
        if let Ok(message) = decode(bytes) {
            *place = message;
            made = made.wrapping_add(1);
        }
    }
    made
}

// Writes each message once: how many bytes that are.
fn write_again(messages: &[Msg], out: &mut [u8; 240]) -> u64 {
    let mut made: u64 = 0;
    for message in messages {
        made = made.wrapping_add(encode(message, out) as u64);
    }
    made
}

/// The picoseconds to read a message, of one round.
pub(crate) fn reads<R: Runtime>(
    rt: &R,
    samples: &[Sample],
    places: &mut [Msg],
    count: u64,
) -> io::Result<u128> {
    let start = Instant::now(rt)?;
    let mut made: u64 = 0;
    for _ in 0..count {
        made = made.wrapping_add(read_again(samples, places));
    }
    let wanted = count.wrapping_mul(samples.len() as u64);
    picoseconds(start.elapsed(rt)?.as_nanos(), made, wanted, wanted)
}

/// The picoseconds to write a message, of one round. All of them have so many bytes.
pub(crate) fn writes<R: Runtime>(
    rt: &R,
    messages: &[Msg],
    bytes: u64,
    count: u64,
) -> io::Result<u128> {
    let mut out = [0; 240];
    let start = Instant::now(rt)?;
    let mut made: u64 = 0;
    for _ in 0..count {
        made = made.wrapping_add(write_again(messages, &mut out));
    }
    let time = start.elapsed(rt)?.as_nanos();
    let calls = count.wrapping_mul(messages.len() as u64);
    picoseconds(time, made, count.wrapping_mul(bytes), calls)
}
