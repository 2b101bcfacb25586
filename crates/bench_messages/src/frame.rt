//! A Remote NDIS packet of the longest frame.
use crate::clock::picoseconds;
use rndis_msg::{Rndis, Small, decode, encode};
use std::io;
use std::rt::Runtime;
use std::time::Instant;

/// The bytes of the packet: 44, and the frame.
pub(crate) const BYTES: u64 = 44 + 1514;

/// The packet.
pub(crate) fn packet() -> Rndis {
    Rndis::Packet {
        body: Small::of(&[0x5a; 1514]),
    }
}

// The length of the frame in these bytes, and its last byte.
fn frame_of(bytes: &[u8]) -> u64 {
    match decode(bytes) {
        Ok(Rndis::Packet { body }) => {
            let last = body.bytes().last().copied().unwrap_or(0);
            (body.bytes().len() as u64).wrapping_add(last as u64)
        }
        _ => 0,
    }
}

/// The picoseconds to read the packet, of one round.
pub(crate) fn reads<R: Runtime>(rt: &R, bytes: &[u8], count: u64) -> io::Result<u128> {
    let start = Instant::now(rt)?;
    let mut made: u64 = 0;
    for _ in 0..count {
        made = made.wrapping_add(frame_of(bytes));
    }
    let wanted = count.wrapping_mul(1514 + 0x5a);
    picoseconds(start.elapsed(rt)?.as_nanos(), made, wanted, count)
}

// Writes the packet: its length, and one of the frame's bytes, another one each time. A byte that nothing reads might not be written.
fn write_again(packet: &Rndis, out: &mut [u8; 1600], turn: u64) -> u64 {
    let len = encode(packet, out) as u64;
    len.wrapping_add(out[44 + (turn % 1514) as usize] as u64)
}

/// The picoseconds to write the packet, of one round.
pub(crate) fn writes<R: Runtime>(
    rt: &R,
    packet: &Rndis,
    out: &mut [u8; 1600],
    count: u64,
) -> io::Result<u128> {
    let start = Instant::now(rt)?;
    let mut made: u64 = 0;
    for turn in 0..count {
        made = made.wrapping_add(write_again(packet, out, turn));
    }
    let wanted = count.wrapping_mul(BYTES + 0x5a);
    picoseconds(start.elapsed(rt)?.as_nanos(), made, wanted, count)
}
