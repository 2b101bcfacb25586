//! Packets against the bytes that Linux's structs lay out.

ghost use Rattle.std.specs.Prelude.{◌+◌, ◌≤◌, length};
ghost use Rattle.vm_page.specs.Words.{words_for};
ghost use Rattle.pkt_desc.specs.Packets.{IsPacket};

use crate::check::check;
use pkt_desc::{
    Desc, Lent, PacketFault, build_comp, build_gpa, build_inband, build_xfer, lent, parse,
};
use std::process::Abort;
use vm_page::Span;

const PAYLOAD: [u8; 20] = [
    0x01, 0x08, 0x0f, 0x16, 0x1d, 0x24, 0x2b, 0x32, 0x39, 0x40, 0x47, 0x4e, 0x55, 0x5c, 0x63, 0x6a,
    0x71, 0x78, 0x7f, 0x86,
];

// A packet in band has so many words; these are the buffer's, of which those behind it stay 7.
fn check_inband(
    rt: &impl Abort,
    tid: u64,
    flags: u16,
    payload: &[u8],
    count: usize,
    words: &[u64; 8],
)
    requires { 2 + words_for (length payload.now) ≤ 8 }
{
    let mut out = [7; 8];
    check(rt, build_inband(&mut out, tid, flags, payload) == count);
    check(rt, out == *words);
}

// The same of a completion.
fn check_comp(rt: &impl Abort, tid: u64, payload: &[u8], count: usize, words: &[u64; 8])
    requires { 2 + words_for (length payload.now) ≤ 8 }
{
    let mut out = [7; 8];
    check(rt, build_comp(&mut out, tid, payload) == count);
    check(rt, out == *words);
}

#[test]
fn built_as_linux_does(rt: HostRuntime) {
    let words = [0x0000_0002_0002_0006, 1, 7, 7, 7, 7, 7, 7];
    check_inband(&rt, 1, 0, &[], 2, &words);
    let words = [0x0001_0003_0002_0006, 2, 1, 7, 7, 7, 7, 7];
    check_inband(&rt, 2, 1, &PAYLOAD[..1], 3, &words);
    let words = [
        0x0001_0003_0002_0006,
        4,
        0x322b_241d_160f_0801,
        7,
        7,
        7,
        7,
        7,
    ];
    check_inband(&rt, 4, 1, &PAYLOAD[..8], 3, &words);
    let words = [
        0xffff_0005_0002_0006,
        u64::MAX,
        0x322b_241d_160f_0801,
        0x6a63_5c55_4e47_4039,
        0x867f_7871,
        7,
        7,
        7,
    ];
    check_inband(&rt, u64::MAX, u16::MAX, &PAYLOAD, 5, &words);
}

#[test]
fn completed_as_linux_does(rt: HostRuntime) {
    let words = [0x0000_0003_0002_000b, 2, 1, 7, 7, 7, 7, 7];
    check_comp(&rt, 2, &PAYLOAD[..1], 3, &words);
    let words = [
        0x0000_0004_0002_000b,
        5,
        0x322b_241d_160f_0801,
        0x39,
        7,
        7,
        7,
        7,
    ];
    check_comp(&rt, 5, &PAYLOAD[..9], 4, &words);
}

const DESC: Desc = Desc {
    kind: 6,
    offset8: 2,
    len8: 3,
    flags: 1,
    tid: 4,
};

#[test]
fn read(rt: HostRuntime) {
    check(&rt, parse(&[0x0001_0003_0002_0006, 4, 9]) == Ok(DESC));
    let comp = Desc {
        kind: 11,
        offset8: 2,
        len8: 2,
        flags: 0,
        tid: 5,
    };
    check(&rt, parse(&[0x0000_0002_0002_000b, 5]) == Ok(comp));
    // The payload may be empty, with words between it and the descriptor.
    check(
        &rt,
        parse(&[0x0001_0003_0003_0006, 4, 9]) == Ok(Desc { offset8: 3, ..DESC }),
    );
}

#[test]
fn refused(rt: HostRuntime) {
    let length = PacketFault::Length { len8: 3, have: 2 };
    check(&rt, parse(&[0x0001_0003_0002_0006, 4]) == Err(length));
    let length = PacketFault::Length { len8: 2, have: 3 };
    check(&rt, parse(&[0x0001_0002_0000_0006, 4, 9]) == Err(length));
    let offset = PacketFault::Offset {
        offset8: 1,
        len8: 3,
    };
    check(&rt, parse(&[0x0001_0003_0001_0006, 4, 9]) == Err(offset));
    let offset = PacketFault::Offset {
        offset8: 4,
        len8: 3,
    };
    check(&rt, parse(&[0x0001_0003_0004_000b, 4, 9]) == Err(offset));
}

// Two parts of pages, and a payload of one byte, in a packet that asks for a completion.
#[test]
fn pages_named_as_linux_does(rt: HostRuntime) {
    let spans = [
        Span {
            page: 100,
            offset: 3072,
            len: 1024,
        },
        Span {
            page: 103,
            offset: 0,
            len: 4096,
        },
    ];
    let mut out = [7; 9];
    check(&rt, build_gpa(&mut out, 42, &spans, &PAYLOAD[..1]) == 8);
    let words = [
        0x0001_0008_0007_0009,
        42,
        0x0000_0002_0000_0000,
        0x0000_0c00_0000_0400,
        100,
        0x0000_0000_0000_1000,
        103,
        1,
        7,
    ];
    check(&rt, out == words);
    let desc = Desc {
        kind: 9,
        offset8: 7,
        len8: 8,
        flags: 1,
        tid: 42,
    };
    check(&rt, parse(&out[..8]) == Ok(desc));
    check(&rt, build_gpa(&mut out, 40, &[], &[]) == 3);
    check(&rt, out[..3] == [0x0001_0003_0003_0009, 40, 0]);
}

// The same of two ranges of a buffer.
#[test]
fn ranges_named_as_linux_does(rt: HostRuntime) {
    let mut out = [7; 8];
    let ranges = [(100, 0), (101, 2048)];
    check(
        &rt,
        build_xfer(&mut out, 62, 0xcafe, &ranges, &PAYLOAD[..9]) == 7,
    );
    let words = [
        0x0001_0007_0005_0007,
        62,
        0x0000_0002_0000_cafe,
        100,
        0x0000_0800_0000_0065,
        0x322b_241d_160f_0801,
        0x39,
        7,
    ];
    check(&rt, out == words);
    let desc = Desc {
        kind: 7,
        offset8: 5,
        len8: 7,
        flags: 1,
        tid: 62,
    };
    check(&rt, parse(&out[..7]) == Ok(desc));
}

// Ranges that don't end before the payload.
#[test]
fn refused_for_its_ranges(rt: HostRuntime) {
    let none = PacketFault::Ranges { count: 0, have: 0 };
    check(&rt, parse(&[0x0001_0002_0002_0009, 4]) == Err(none));
    check(
        &rt,
        parse(&[0x0001_0003_0002_0007, 4, 0x5_0000_0000]) == Err(none),
    );
    // Words of the payload aren't looked at.
    let two = PacketFault::Ranges { count: 2, have: 3 };
    let mut words = [0x0001_0007_0005_0009, 4, 0x2_0000_0000, 4096, 9, 4096, 9];
    check(&rt, parse(&words) == Err(two));
    // A range of no bytes has a word alone.
    words[0] = 0x0001_0007_0006_0009;
    words[5] = 0;
    check(&rt, parse(&words).is_ok());
    words[5] = 1;
    check(&rt, parse(&words).is_err());
    // Two pages, of one range whose offset isn't in its first page.
    let far = [
        0x0001_0006_0006_0009,
        4,
        0x1_0000_0000,
        0x1000_0000_0001,
        9,
        9,
    ];
    check(&rt, parse(&far).is_ok());
    let most = PacketFault::Ranges {
        count: u32::MAX,
        have: 3,
    };
    for first in [0x0001_0005_0005_0007, 0x0001_0005_0005_0009] {
        check(&rt, parse(&[first, 4, u64::MAX, 0, 0]) == Err(most));
    }
    // Other types have no ranges.
    check(&rt, parse(&[0x0001_0003_0003_0006, 4, u64::MAX]).is_ok());
}

// What a packet of type 9 with one range lends, and one of type 7, and one of type 6.
fn of_span(range: u64, frame: u64) -> Option<Lent> {
    lent(&[0x0001_0005_0005_0009, 1, 0x1_0000_0000, range, frame])
}

fn of_buffer(third: u64, range: u64) -> Option<Lent> {
    lent(&[0x0001_0004_0004_0007, 1, third, range])
}

fn of_section(first: u64, second: u64) -> Option<Lent> {
    lent(&[0x0001_0007_0002_0006, 1, first, second, 0, 0, 0])
}

fn check_lends_none(rt: &impl Abort, words: &[u64])
    requires { IsPacket words.now }
{
    check(rt, lent(words).is_none());
}

#[test]
fn pages_lent(rt: HostRuntime) {
    let last = Some(Lent {
        page: 63,
        bytes: 4096,
    });
    check(&rt, of_span(4096, 63) == last);
    check(&rt, of_section(0x1_0000_006b, 0x1000_0000_003f) == last);
    let first = Some(Lent { page: 0, bytes: 1 });
    check(&rt, of_span(1, 0) == first);
    check(&rt, of_section(107, 0x1_0000_0000) == first);
    let buffer = Some(Lent {
        page: 127,
        bytes: 58,
    });
    check(
        &rt,
        of_buffer(0x1_0000_cafe, 0x0003_f000_0000_003a) == buffer,
    );
}

#[test]
fn no_page_lent(rt: HostRuntime) {
    for (range, frame) in [
        (0, 3),
        (4097, 3),
        (0x1_0000_0001, 3),
        (64, 64),
        (64, u64::MAX),
    ] {
        check(&rt, of_span(range, frame).is_none());
    }
    let third = 0x1_0000_cafe;
    for (third, range) in [
        (third, 0),
        (third, 4097),
        (third, 0x0800_0000_003a),
        (third, 0x0004_0000_0000_003a),
        (0x1_0000_caff, 58),
        (0xcafe, 58),
    ] {
        check(&rt, of_buffer(third, range).is_none());
    }
    for (first, second) in [
        (106, 0x1_0000_0000),
        (107, 0),
        (107, 0x1001_0000_0000),
        (107, 0x1_0000_0040),
        (107, 0xffff_ffff),
    ] {
        check(&rt, of_section(first, second).is_none());
    }
    // Two ranges, four words of payload, a completion, and ranges past the payload.
    check_lends_none(
        &rt,
        &[0x0001_0007_0007_0009, 1, 0x2_0000_0000, 64, 3, 64, 4],
    );
    check_lends_none(
        &rt,
        &[0x0001_0007_0003_0006, 1, 107, 107, 0x1_0000_0000, 0, 0],
    );
    check_lends_none(
        &rt,
        &[0x0000_0007_0002_000b, 1, 107, 0x1_0000_0000, 0, 0, 0],
    );
    check_lends_none(&rt, &[0x0001_0007_0004_0009, 1, 0x1_0000_0000, 64, 3, 0, 0]);
}
