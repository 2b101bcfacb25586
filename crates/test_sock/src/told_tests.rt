//! Packets of a peer that may write anything, over a told memory.
ghost use Rattle.std.specs.Prelude.{◌≡◌, ◌≤◌, length};

use crate::check::check;
use hv_sock::{Got, SockEnd, SockFault};
use ring_core::{Change, End, Place, Ring, Room, Side, TakeRefusal, ToldMem};
use std::alloc::AllocGlobal;
use std::process::Abort;

// The first word of a packet of so many words: in-band data whose payload begins at word 2.
fn first_word(words: u64) -> u64 {
    words.wrapping_mul(0x1_0000_0000).wrapping_add(0x2_0006)
}

// The header of a packet of a socket, with this type and number of bytes.
fn header(kind: u64, size: u64) -> u64 {
    size.wrapping_mul(0x1_0000_0000).wrapping_add(kind)
}

// The guest's end of a socket, over a memory in whose ring these words wait: as many packets as there are in them, with a trailer behind each.
fn sock(rt: &(impl Abort + AllocGlobal), words: &[u64]) -> SockEnd<ToldMem> {
    let none: Vec<Change> = Vec::new(rt.alloc());
    let mut told = ToldMem::make(rt.alloc(), 4096, none, 0).expect(rt, "memory");
    check(rt, words.len() < 512);
    for i in 0..words.len() {
        told.put(Place::Cell(Ring::ToGuest, 8 * i as u32), words[i]);
    }
    told.put(Place::Write(Ring::ToGuest), 8 * words.len() as u64);
    let mut e = End::make(rt.alloc(), Side::Guest, 4096, told, 0).expect(rt, "memory");
    let room = Room {
        packets: 8,
        words: 1024,
    };
    e.reserve(room, room).expect(rt, "memory");
    SockEnd::make(e)
}

// Whether a read may be made, answers so, and leaves so many steps.
fn answers(e: &mut SockEnd<ToldMem>, want: Result<Got, SockFault>, steps: u64) -> bool {
    let mut out = [7; 2048];
    e.may_read() && e.read(&mut out) == want && e.end().seat().steps() == steps
}

// A packet of these words behind its first one is refused so, twice, and the second read makes no step.
fn refuses(rt: &(impl Abort + AllocGlobal), behind: &[u64], want: SockFault) {
    let len = behind.len() as u64;
    check(rt, len < 500);
    let mut words = Vec::new(rt.alloc());
    words.push(first_word(1 + len)).expect(rt, "memory");
    for i in 0..behind.len() {
        words.push(behind[i]).expect(rt, "memory");
    }
    words.push(0).expect(rt, "memory");
    let mut e = sock(rt, words.as_slice());
    // A take of n words makes n + 1 steps, and the commit stores read, and loads feature and pending.
    let steps = len + 5;
    check(rt, answers(&mut e, Err(want), steps));
    check(rt, answers(&mut e, Err(want), steps));
    check(rt, e.end().got().len() == 1);
    drop(e);
}

// Zeros behind an id of 0 and this header.
fn zeros(rt: &(impl Abort + AllocGlobal), header: u64, words: usize) -> Vec<u64> {
    let mut behind = Vec::new(rt.alloc());
    behind.push(0).expect(rt, "memory");
    behind.push(header).expect(rt, "memory");
    for _i in 0..words {
        behind.push(0).expect(rt, "memory");
    }
    behind
}

#[test]
fn another_type_is_refused_for_good(rt: HostRuntime) {
    let kind = SockFault::Kind { value: 2 };
    refuses(&rt, &[0, header(2, 8), 9], kind);
    // The type is looked at before the size.
    refuses(&rt, &[0, header(2, 2049)], kind);
    refuses(&rt, &[0, header(2, 0)], kind);
}

#[test]
fn a_payload_without_a_header_is_short(rt: HostRuntime) {
    refuses(&rt, &[0], SockFault::Short { have: 0 });
}

#[test]
fn sizes_have_to_fill_the_payload(rt: HostRuntime) {
    let few = SockFault::Size { value: 8, have: 8 };
    refuses(&rt, &[0, header(1, 8)], few);
    let many = SockFault::Size { value: 8, have: 24 };
    refuses(&rt, &[0, header(1, 8), 9, 9], many);
    let none = SockFault::Size { value: 0, have: 16 };
    refuses(&rt, &[0, header(1, 0), 9], none);
}

#[test]
fn sizes_end_at_2048(rt: HostRuntime) {
    let above = SockFault::Size {
        value: 2049,
        have: 2064,
    };
    let behind = zeros(&rt, header(1, 2049), 257);
    refuses(&rt, behind.as_slice(), above);
    let greatest = SockFault::Size {
        value: 0xffff_ffff,
        have: 8,
    };
    refuses(&rt, &[0, header(1, 0xffff_ffff)], greatest);
    let behind = zeros(&rt, header(1, 0xffff_ffff), 256);
    let greatest = SockFault::Size {
        value: 0xffff_ffff,
        have: 2056,
    };
    refuses(&rt, behind.as_slice(), greatest);
}

// The padding isn't zero, and isn't data.
#[test]
fn padding_is_no_data(rt: HostRuntime) {
    let mut e = sock(
        &rt,
        &[first_word(4), 0, header(1, 3), 0x0807_0605_0403_0201, 0],
    );
    let mut out = [7; 2048];
    check(&rt, e.may_read() && e.read(&mut out) == Ok(Got::Bytes(3)));
    check(&rt, out.starts_with(&[1, 2, 3, 7, 7]));
    drop(e);
}

#[test]
fn nothing_is_taken_behind_the_end(rt: HostRuntime) {
    let words = [
        first_word(3),
        0,
        header(1, 0),
        0,
        first_word(4),
        0,
        header(1, 8),
        9,
        0,
    ];
    let mut e = sock(&rt, &words);
    check(&rt, answers(&mut e, Ok(Got::End), 7));
    check(&rt, answers(&mut e, Err(SockFault::Ended), 7));
    check(&rt, answers(&mut e, Err(SockFault::Ended), 7));
    check(&rt, e.end().got().len() == 1);
    drop(e);
}

// A type, flags and an id of other kinds of packets, and an offset of three words.
#[test]
fn the_descriptor_is_not_looked_at(rt: HostRuntime) {
    let mut e = sock(
        &rt,
        &[
            0x0001_0005_0003_0007,
            5,
            6,
            header(1, 8),
            0x0807_0605_0403_0201,
            0,
        ],
    );
    let mut out = [0; 2048];
    check(&rt, e.may_read() && e.read(&mut out) == Ok(Got::Bytes(8)));
    check(&rt, out.starts_with(&[1, 2, 3, 4, 5, 6, 7, 8, 0]));
    drop(e);
}

#[test]
fn a_take_is_refused_as_ever(rt: HostRuntime) {
    let mut e = sock(&rt, &[]);
    let empty = Err(SockFault::Take(TakeRefusal::Empty { at: 0 }));
    check(&rt, answers(&mut e, empty, 1) && answers(&mut e, empty, 2));
    drop(e);
}
