//! Lists cut as Linux cuts them, and assembled again.
use crate::check::check;
use gpadl::{Assembler, GpadlFault, Progress, to_messages};
use std::process::Abort;
use vmbus_msg::{Frames, GpadlBody, Msg};

// How many frames a piece holds.
fn frames(m: &Msg) -> usize {
    match m {
        Msg::GpadlHeader(h) => h.frames.len(),
        Msg::GpadlBody(b) => b.frames.len(),
        _ => 0,
    }
}

// Feeds a piece, and gives the pages where the list is whole.
fn feed(
    rt: &impl Abort,
    assembler: &mut Assembler,
    m: &Msg,
) -> Result<Option<Vec<u64>>, GpadlFault> {
    check(rt, matches!(m, Msg::GpadlHeader(_) | Msg::GpadlBody(_)));
    match assembler.feed(m) {
        Ok(Progress::Done(list)) => Ok(Some(list.pages)),
        Ok(Progress::More { have: _, want: _ }) => Ok(None),
        Err(fault) => Err(fault),
    }
}

fn check_taken(rt: &impl Abort, assembler: &mut Assembler, m: &Msg) {
    check(rt, feed(rt, assembler, m).is_ok());
}

fn check_refused(rt: &impl Abort, assembler: &mut Assembler, m: &Msg, fault: GpadlFault) {
    check(rt, feed(rt, assembler, m).err() == Some(fault));
}

// The last piece makes the list whole, with these pages, and no piece before it does.
fn check_whole(rt: &impl Abort, assembler: &mut Assembler, pieces: &[Msg], pages: &[u64]) {
    let Some((last, before)) = pieces.split_last() else {
        panic!(rt; "no piece");
    };
    for m in before {
        check(rt, matches!(feed(rt, assembler, m), Ok(None)));
    }
    match feed(rt, assembler, last) {
        Ok(Some(whole)) => check(rt, whole.as_slice() == pages),
        _ => check(rt, false),
    }
}

// Page numbers from this one on.
fn numbers(rt: &(impl Abort + AllocGlobal), from: u64, count: u64) -> Vec<u64> {
    let mut pages = Vec::new(rt.alloc());
    for i in 0..count {
        check(rt, pages.push(from.wrapping_add(i)).is_ok());
    }
    pages
}

// The messages of a list.
fn pieces_of(rt: &(impl Abort + AllocGlobal), handle: u32, pages: &[u64]) -> Vec<Msg> {
    check(rt, 1 <= pages.len() && pages.len() <= 8190);
    let Ok(pieces) = to_messages(rt.alloc(), 5, handle, pages) else {
        panic!(rt; "no memory");
    };
    pieces
}

// A list of so many pages has so many pieces, the last with so many frames.
fn check_cut(rt: &(impl Abort + AllocGlobal), count: u64, parts: usize, last: usize) {
    let pages = numbers(rt, 4000, count);
    let pieces = pieces_of(rt, 0xe1e10, &pages);
    check(rt, pieces.len() == parts);
    check(rt, pieces.last().map(frames) == Some(last));
    let mut assembler = Assembler::make(rt.alloc());
    check_whole(rt, &mut assembler, &pieces, &pages);
    check(rt, assembler.torn(0xe1e10));
    check(rt, !assembler.torn(0xe1e10));
}

#[test]
fn cuts(rt: HostRuntime) {
    for (count, parts, last) in [(1, 1, 1), (26, 1, 26), (27, 2, 1), (54, 2, 28), (55, 3, 1)] {
        check_cut(&rt, count, parts, last);
    }
}

fn check_header(rt: &impl Abort, m: &Msg, pages: &[u64]) {
    let Msg::GpadlHeader(h) = m else {
        panic!(rt; "no header");
    };
    check(
        rt,
        (h.relid, h.gpadl, h.range_buflen, h.rangecount) == (5, 0xe1e10, 0xe0, 1),
    );
    check(
        rt,
        (h.byte_count, h.byte_offset, h.padding) == (0x1_b000, 0, 0),
    );
    check(
        rt,
        h.frames.len() == 26 && pages.starts_with(h.frames.as_slice()),
    );
}

fn check_body(rt: &impl Abort, m: &Msg) {
    let Msg::GpadlBody(b) = m else {
        panic!(rt; "no body");
    };
    check(rt, (b.msgnumber, b.gpadl, b.padding) == (0, 0xe1e10, 0));
    check(rt, b.frames.as_slice() == [4026].as_slice());
}

// What Linux's create_gpadl_header writes for 27 pages from 4000 on.
#[test]
fn fields(rt: HostRuntime) {
    let pages = numbers(&rt, 4000, 27);
    let pieces = pieces_of(&rt, 0xe1e10, &pages);
    check(&rt, pieces.len() == 2);
    check_header(&rt, &pieces[0], &pages);
    check_body(&rt, &pieces[1]);
}

// A body with two frames.
fn long_body() -> Msg {
    let mut frames = Frames::new();
    frames.push(1);
    frames.push(2);
    Msg::GpadlBody(GpadlBody {
        padding: 0,
        msgnumber: 0,
        gpadl: 7,
        frames,
    })
}

// A header with its range turned.
fn moved(m: &Msg, byte_offset: u32, byte_count: u32) -> Msg {
    match *m {
        Msg::GpadlHeader(mut h) => {
            h.byte_offset = byte_offset;
            h.byte_count = byte_count;
            Msg::GpadlHeader(h)
        }
        other => other,
    }
}

#[test]
fn refusals(rt: HostRuntime) {
    let pages = numbers(&rt, 0, 27);
    let pieces = pieces_of(&rt, 7, &pages);
    let others = pieces_of(&rt, 8, &pages);
    check(&rt, (pieces.len(), others.len()) == (2, 2));
    let mut assembler = Assembler::make(rt.alloc());
    check_refused(
        &rt,
        &mut assembler,
        &pieces[1],
        GpadlFault::Handle { id: 7 },
    );
    check_taken(&rt, &mut assembler, &pieces[0]);
    check_refused(
        &rt,
        &mut assembler,
        &pieces[0],
        GpadlFault::Repeat { id: 7 },
    );
    check_refused(
        &rt,
        &mut assembler,
        &others[0],
        GpadlFault::Handle { id: 8 },
    );
    check_refused(
        &rt,
        &mut assembler,
        &others[1],
        GpadlFault::Handle { id: 8 },
    );
    check_refused(
        &rt,
        &mut assembler,
        &long_body(),
        GpadlFault::Count { want: 1, have: 2 },
    );
    check(&rt, !assembler.torn(7));
    check_taken(&rt, &mut assembler, &pieces[1]);
    check_refused(
        &rt,
        &mut assembler,
        &pieces[0],
        GpadlFault::Repeat { id: 7 },
    );
    check(&rt, assembler.torn(7));
    let range = moved(&pieces[0], 1, 0);
    check_refused(&rt, &mut assembler, &range, GpadlFault::Range { value: 1 });
    let range = moved(&pieces[0], 0, 4096);
    check_refused(
        &rt,
        &mut assembler,
        &range,
        GpadlFault::Range { value: 4096 },
    );
}
