//! Words, bytes and parts of pages, against values from outside.

use crate::check::check;
use std::process::Abort;
use vm_page::{Span, SpanFault, bytes_of, spans, word_of};

// The payload bytes 7i + 1 of a packet that Linux's structs lay out.
const BYTES: [u8; 9] = [0x01, 0x08, 0x0f, 0x16, 0x1d, 0x24, 0x2b, 0x32, 0x39];

#[test]
fn words(rt: HostRuntime) {
    for (i, word) in [
        (0, 0x322b_241d_160f_0801),
        (1, 0x39),
        (2, 0),
        (usize::MAX, 0),
    ] {
        check(&rt, word_of(&BYTES, i) == word);
    }
    check(&rt, word_of(&[], 0) == 0);
}

#[test]
fn bytes(rt: HostRuntime) {
    let mut out = [0xee; 9];
    bytes_of(&[0x322b_241d_160f_0801, 0x39], &mut out);
    check(&rt, out == BYTES);
    let mut whole = [0; 8];
    bytes_of(&[0xf4_8000_0000, 7], &mut whole);
    check(&rt, whole == [0, 0, 0, 0x80, 0xf4, 0, 0, 0]);
}

const NONE: Span = Span {
    page: 9,
    offset: 9,
    len: 9,
};

// A range's offset and length, its pages, and its parts or why it is refused.
struct Range {
    offset: u32,
    len: u32,
    pages: &'static [u64],
    parts: Result<&'static [Span], SpanFault>,
}

const RANGES: [Range; 9] = [
    Range {
        offset: 3072,
        len: 5120,
        pages: &[100, 103],
        parts: Ok(&[
            Span {
                page: 100,
                offset: 3072,
                len: 1024,
            },
            Span {
                page: 103,
                offset: 0,
                len: 4096,
            },
        ]),
    },
    Range {
        offset: 3584,
        len: 512,
        pages: &[7],
        parts: Ok(&[Span {
            page: 7,
            offset: 3584,
            len: 512,
        }]),
    },
    Range {
        offset: 4095,
        len: 2,
        pages: &[1, 2],
        parts: Ok(&[
            Span {
                page: 1,
                offset: 4095,
                len: 1,
            },
            Span {
                page: 2,
                offset: 0,
                len: 1,
            },
        ]),
    },
    // An empty range has no part, and still touches the page that its offset is in.
    Range {
        offset: 5,
        len: 0,
        pages: &[1],
        parts: Ok(&[]),
    },
    Range {
        offset: 0,
        len: 0,
        pages: &[],
        parts: Ok(&[]),
    },
    Range {
        offset: 0,
        len: 0,
        pages: &[1],
        parts: Err(SpanFault::Pages { want: 0, have: 1 }),
    },
    Range {
        offset: 4096,
        len: 0,
        pages: &[1, 2],
        parts: Err(SpanFault::Offset { value: 4096 }),
    },
    Range {
        offset: 1,
        len: 4096,
        pages: &[1],
        parts: Err(SpanFault::Pages { want: 2, have: 1 }),
    },
    Range {
        offset: 4095,
        len: u32::MAX,
        pages: &[1],
        parts: Err(SpanFault::Pages {
            want: 1_048_577,
            have: 1,
        }),
    },
];

// Whether these are the first spans, and each behind them is as before.
fn are_first(out: &[Span], parts: &[Span]) -> bool {
    out.starts_with(parts) && out.iter().skip(parts.len()).all(|span| *span == NONE)
}

fn check_range(rt: &impl Abort, range: &Range) {
    let mut out = [NONE, NONE, NONE];
    check(rt, range.pages.len() <= 3);
    match (
        spans(range.offset, range.len, range.pages, &mut out),
        range.parts,
    ) {
        (Ok(count), Ok(parts)) => check(rt, count == parts.len() && are_first(&out, parts)),
        (Err(fault), Err(want)) => check(rt, fault == want && are_first(&out, &[])),
        _ => check(rt, false),
    }
}

fn check_ranges(rt: &impl Abort, ranges: &[Range]) {
    for range in ranges {
        check_range(rt, range);
    }
}

#[test]
fn ranges(rt: HostRuntime) {
    check_ranges(&rt, &RANGES);
}
