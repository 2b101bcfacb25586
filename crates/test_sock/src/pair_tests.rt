//! Both ends of a socket over one memory, by turns.
use crate::check::check;
use hv_sock::{Got, SockEnd, SockFault};
use ring_core::{End, Room, Side, SoloMem};
use std::alloc::AllocGlobal;
use std::process::Abort;

// The room of each list.
const ROOM: Room = Room {
    packets: 8,
    words: 8192,
};

// The end of a socket over a solo memory of four pages a ring.
fn sock(rt: &(impl Abort + AllocGlobal), side: Side) -> SockEnd<SoloMem> {
    let solo = SoloMem::make(rt.alloc(), 16384, 0).expect(rt, "memory");
    let mut e = End::make(rt.alloc(), side, 16384, solo, 0).expect(rt, "memory");
    e.reserve(ROOM, ROOM).expect(rt, "memory");
    SockEnd::make(e)
}

// Whether these bytes may be written, and are.
fn writes(e: &mut SockEnd<SoloMem>, bytes: &[u8]) -> bool {
    e.may_write(bytes.len()) && e.write(bytes).is_ok()
}

// Whether the direction may be ended, and is.
fn shuts(e: &mut SockEnd<SoloMem>) -> bool {
    e.may_shut() && e.shut().is_ok()
}

// Whether a read may be made, and gives these bytes.
fn reads(e: &mut SockEnd<SoloMem>, want: &[u8]) -> bool {
    let mut out = [0; 2048];
    e.may_read() && e.read(&mut out) == Ok(Got::Bytes(want.len())) && out.starts_with(want)
}

// Whether a read may be made, and answers so.
fn answers(e: &mut SockEnd<SoloMem>, want: Result<Got, SockFault>) -> bool {
    let mut out = [0; 2048];
    e.may_read() && e.read(&mut out) == want
}

// Whether the channel's memory can go from one end to the other, and does.
fn hands(from: &mut SockEnd<SoloMem>, to: &mut SockEnd<SoloMem>) -> bool {
    if from.end().cells() != to.end().cells() {
        return false;
    }
    from.swap_memory(to);
    true
}

// Whether the packet at this place of those that were sent names data of this size, and has the words for them.
fn sent_size(e: &SockEnd<SoloMem>, i: usize, want: u32) -> bool {
    match e.end().sent().get(i) {
        Some(packet) => packet.len() > 2
            && packet.len() as u64 == 3 + u64::from(want).div_ceil(8)
            && packet[2] == 1 + (u64::from(want) << 32),
        None => false,
    }
}

// Writes 5,000 bytes in three packets, and ends the direction by a fourth.
fn writes_all(rt: &impl Abort, g: &mut SockEnd<SoloMem>, parts: [&[u8]; 3]) {
    let first = writes(g, parts[0]);
    let second = writes(g, parts[1]);
    let third = writes(g, parts[2]);
    check(rt, first && second && third && shuts(g));
    check(rt, sent_size(g, 0, 2048) && sent_size(g, 1, 2048));
    check(rt, sent_size(g, 2, 904) && sent_size(g, 3, 0));
    check(rt, g.end().sent().len() == 4);
    check(rt, !g.may_write(1) && !g.may_shut());
}

// Reads them in three packets, and then the end.
fn reads_all(rt: &impl Abort, h: &mut SockEnd<SoloMem>, parts: [&[u8]; 3]) {
    let first = reads(h, parts[0]);
    let second = reads(h, parts[1]);
    let third = reads(h, parts[2]);
    check(rt, first && second && third);
    check(rt, answers(h, Ok(Got::End)));
    check(rt, answers(h, Err(SockFault::Ended)));
}

#[test]
fn five_thousand_bytes_go_in_four_packets(rt: HostRuntime) {
    let mut g = sock(&rt, Side::Guest);
    let mut h = sock(&rt, Side::Host);
    let bytes = Vec::from_elem(rt.alloc(), 0x61, 5000).expect(&rt, "memory");
    let input = bytes.as_slice();
    check(&rt, input.len() == 5000);
    let parts = [&input[..2048], &input[2048..4096], &input[4096..]];
    writes_all(&rt, &mut g, parts);
    check(&rt, hands(&mut g, &mut h));
    reads_all(&rt, &mut h, parts);
    drop(g);
    drop(h);
}

// Each end ends its direction, and reads the other one's end.
fn ends_both(rt: &impl Abort, g: &mut SockEnd<SoloMem>, h: &mut SockEnd<SoloMem>) {
    check(rt, shuts(g) && hands(g, h));
    check(rt, answers(h, Ok(Got::End)) && shuts(h));
    check(rt, hands(h, g) && answers(g, Ok(Got::End)));
    check(rt, sent_size(g, 0, 0) && sent_size(h, 0, 0));
    check(rt, g.end().sent().len() == 1 && h.end().sent().len() == 1);
}

// Whether the first packet that an end got is the end of a direction.
fn got_an_end(g: SockEnd<SoloMem>) -> bool {
    let end = g.into_end();
    let packet: &[u64] = &[0x3_0002_0006, 0, 1];
    let came = end.got().get(0) == Some(packet);
    drop(end);
    came
}

#[test]
fn empty_input_is_one_packet_each_way(rt: HostRuntime) {
    let mut g = sock(&rt, Side::Guest);
    let mut h = sock(&rt, Side::Host);
    ends_both(&rt, &mut g, &mut h);
    drop(h);
    check(&rt, got_an_end(g));
}
