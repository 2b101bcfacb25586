//! The page lists of networks' buffers: two networks over two phases, of which the host rescinds the second
//! one at the end of the first phase.
use crate::check::check;
use crate::made::path_of;
use crate::parts::{farewell, go};
use chan_state::State;
use control_path::{ControlPath, PathOver};
use std::process::Abort;
use std::sync::Wait;
use std::thread::Threads;
use vmbus_msg::Msg;

// Rings of one data page: the list of the rings has 4 pages, and each buffer's 64.
const SCRIPT: &[u8] =
    b"contact 5.2 5.2\noffer net n 020000000001 0200000000fe\noffer net m 020000000002 0200000000fd\nquery n 0x00010106\nrescind m after 0\nphase\nquery n 0x00010106\n";

const GPADL: u32 = 0xe1e10;

// What the tests tell messages by: the type, relid or number of a body, handle, the number of frames, and
// the first frame.
type Told = (u32, u32, u32, usize, u64);

fn first(frames: &[u64]) -> u64 {
    match frames {
        [frame, ..] => *frame,
        [] => 0,
    }
}

fn told(m: &Msg) -> Told {
    match m {
        Msg::OfferChannel { relid, .. } => (1, *relid, 0, 0, 0),
        Msg::RescindChannelOffer { relid, .. } => (2, *relid, 0, 0, 0),
        Msg::RequestOffers { .. } => (3, 0, 0, 0, 0),
        Msg::AllOffersDelivered { .. } => (4, 0, 0, 0, 0),
        Msg::OpenChannel { relid, gpadl, .. } => (5, *relid, *gpadl, 0, 0),
        Msg::OpenChannelResult { relid, .. } => (6, *relid, 0, 0, 0),
        Msg::CloseChannel { relid, .. } => (7, *relid, 0, 0, 0),
        Msg::GpadlHeader(h) => (
            8,
            h.relid,
            h.gpadl,
            h.frames.len(),
            first(h.frames.as_slice()),
        ),
        Msg::GpadlBody(b) => (
            9,
            b.msgnumber,
            b.gpadl,
            b.frames.len(),
            first(b.frames.as_slice()),
        ),
        Msg::GpadlCreated { relid, gpadl, .. } => (10, *relid, *gpadl, 0, 0),
        Msg::GpadlTeardown { relid, gpadl, .. } => (11, *relid, *gpadl, 0, 0),
        Msg::GpadlTorndown { gpadl, .. } => (12, 0, *gpadl, 0, 0),
        Msg::RelidReleased { relid, .. } => (13, *relid, 0, 0, 0),
        Msg::InitiateContact { .. } => (14, 0, 0, 0, 0),
        Msg::VersionResponse { .. } => (15, 0, 0, 0, 0),
        Msg::Unload { .. } => (16, 0, 0, 0, 0),
        Msg::UnloadResponse { .. } => (17, 0, 0, 0, 0),
        _ => (0, 0, 0, 0, 0),
    }
}

// All that the guest says: of each list of 64 pages a header of 26 frames and bodies of 28 and 10.
const GUEST_SAYS: &[Told] = &[
    (14, 0, 0, 0, 0),
    (3, 0, 0, 0, 0),
    (8, 1, GPADL, 4, 0),
    (5, 1, GPADL, 0, 0),
    (8, 1, GPADL + 1, 26, 4),
    (9, 0, GPADL + 1, 28, 30),
    (9, 1, GPADL + 1, 10, 58),
    (8, 1, GPADL + 2, 26, 68),
    (9, 0, GPADL + 2, 28, 94),
    (9, 1, GPADL + 2, 10, 122),
    (8, 2, GPADL + 3, 4, 132),
    (5, 2, GPADL + 3, 0, 0),
    (8, 2, GPADL + 4, 26, 136),
    (9, 0, GPADL + 4, 28, 162),
    (9, 1, GPADL + 4, 10, 190),
    (8, 2, GPADL + 5, 26, 200),
    (9, 0, GPADL + 5, 28, 226),
    (9, 1, GPADL + 5, 10, 254),
    (11, 1, GPADL + 2, 0, 0),
    (11, 1, GPADL + 1, 0, 0),
    (7, 1, 0, 0, 0),
    (11, 1, GPADL, 0, 0),
    (13, 2, 0, 0, 0),
    (8, 1, GPADL + 6, 4, 264),
    (5, 1, GPADL + 6, 0, 0),
    (8, 1, GPADL + 7, 26, 268),
    (9, 0, GPADL + 7, 28, 294),
    (9, 1, GPADL + 7, 10, 322),
    (8, 1, GPADL + 8, 26, 332),
    (9, 0, GPADL + 8, 28, 358),
    (9, 1, GPADL + 8, 10, 386),
    (11, 1, GPADL + 8, 0, 0),
    (11, 1, GPADL + 7, 0, 0),
    (7, 1, 0, 0, 0),
    (11, 1, GPADL + 6, 0, 0),
    (16, 0, 0, 0, 0),
];

// And the host.
const HOST_SAYS: &[Told] = &[
    (15, 0, 0, 0, 0),
    (1, 1, 0, 0, 0),
    (1, 2, 0, 0, 0),
    (4, 0, 0, 0, 0),
    (10, 1, GPADL, 0, 0),
    (6, 1, 0, 0, 0),
    (10, 1, GPADL + 1, 0, 0),
    (10, 1, GPADL + 2, 0, 0),
    (10, 2, GPADL + 3, 0, 0),
    (6, 2, 0, 0, 0),
    (10, 2, GPADL + 4, 0, 0),
    (10, 2, GPADL + 5, 0, 0),
    (12, 0, GPADL + 2, 0, 0),
    (12, 0, GPADL + 1, 0, 0),
    (12, 0, GPADL, 0, 0),
    (2, 2, 0, 0, 0),
    (10, 1, GPADL + 6, 0, 0),
    (6, 1, 0, 0, 0),
    (10, 1, GPADL + 7, 0, 0),
    (10, 1, GPADL + 8, 0, 0),
    (12, 0, GPADL + 8, 0, 0),
    (12, 0, GPADL + 7, 0, 0),
    (12, 0, GPADL + 6, 0, 0),
    (17, 0, 0, 0, 0),
];

// These pages follow each other, and the first one is this. The page behind the last one.
fn check_pages(rt: &impl Abort, first: u64, frames: &[u64]) -> u64 {
    let mut page = first;
    for frame in frames {
        check(rt, *frame == page);
        page = page.wrapping_add(1);
    }
    page
}

// The pages of all lists follow each other from 0 on, and each header tells the bytes of its whole list.
fn check_whole_lists(rt: &impl Abort, posted: &[Msg]) {
    let mut page = 0;
    for m in posted {
        page = match m {
            Msg::GpadlHeader(h) => {
                let whole = if h.frames.len() == 26 {
                    (520, 262_144)
                } else {
                    (40, 16_384)
                };
                check(rt, (h.range_buflen, h.byte_count) == whole);
                check(rt, (h.rangecount, h.byte_offset) == (1, 0));
                check_pages(rt, page, h.frames.as_slice())
            }
            Msg::GpadlBody(b) => check_pages(rt, page, b.frames.as_slice()),
            _ => page,
        };
    }
    // Three lists of 4 pages for rings, and six of 64 for buffers.
    check(rt, page == 396);
}

// Each list was accepted, and each channel opened.
fn check_accepted(rt: &impl Abort, posted: &[Msg]) {
    for m in posted {
        match m {
            Msg::GpadlCreated { status, .. } | Msg::OpenChannelResult { status, .. } => {
                check(rt, *status == 0);
            }
            _ => {}
        }
    }
}

// The last two page lists that the guest told for each of the networks' channels, and for none of another one.
fn check_lists(rt: &impl Abort, path: &ControlPath, n: (u32, u32), m: (u32, u32)) {
    check(rt, path.last_lists(1) == n);
    check(rt, path.last_lists(2) == m);
    check(rt, path.last_lists(3) == (0, 0));
}

// Runs all parts of the script, which has two phases.
fn stay<R: Abort + AllocGlobal + Threads + Wait + Sync>(rt: &R) -> PathOver {
    let contacted = go(rt, path_of(rt, SCRIPT));
    check_lists(rt, &contacted, (0, 0), (0, 0));
    let opened = go(rt, contacted);
    check_lists(rt, &opened, (GPADL + 1, GPADL + 2), (GPADL + 4, GPADL + 5));
    let closed = go(rt, opened);
    let again = go(rt, closed);
    check_lists(rt, &again, (GPADL + 7, GPADL + 8), (GPADL + 4, GPADL + 5));
    let ended = go(rt, again);
    farewell(rt, ended)
}

// These were said, and nothing else.
fn check_said(rt: &impl Abort, posted: &[Msg], says: &[Told]) {
    let mut said = posted.iter();
    for want in says {
        check(rt, said.next().map(told) == Some(*want));
    }
    check(rt, said.next().is_none());
}

#[test]
fn buffers_have_lists(rt: HostRuntime) {
    let over = stay(&rt);
    let (guest, host) = (&over.guest, &over.host);
    check_said(&rt, guest.posted(), GUEST_SAYS);
    check_said(&rt, host.fed(), GUEST_SAYS);
    check_said(&rt, host.posted(), HOST_SAYS);
    check_said(&rt, guest.fed(), HOST_SAYS);
    check_whole_lists(&rt, guest.posted());
    check_accepted(&rt, host.posted());
    check(
        &rt,
        guest.state(1) == Some(State::Closed) && host.state(1) == Some(State::Closed),
    );
    check(
        &rt,
        guest.state(2) == Some(State::Released) && host.state(2) == Some(State::Released),
    );
    drop(over);
}
