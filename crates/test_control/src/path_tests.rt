//! Both controls over the queues between them, the host's on a thread of its own.
use crate::check::check;
use crate::made::path_of;
use crate::parts::{farewell, go};
use chan_state::State;
use contact::Version;
use control_path::PathOver;
use std::process::Abort;
use std::sync::Wait;
use std::thread::Threads;
use vmbus_msg::Msg;

// Two phases: a disk with two sub-channels, which is open in both, and a heartbeat that is closed in the first, with rings of 16 pages, whose lists take
// two messages each.
const SCRIPT: &[u8] =
    b"contact 5.2 4.1\noffer disk a 64 2\noffer hb b\nring a 16\nready a\nbeat b 1\nclose b\nphase\nready a\nrescind a after 1\n";

// Runs all parts of a script with two phases.
fn stay<R: Abort + AllocGlobal + Threads + Wait + Sync>(rt: &R, script: &[u8]) -> PathOver {
    let contacted = go(rt, path_of(rt, script));
    let opened = go(rt, contacted);
    let closed = go(rt, opened);
    let again = go(rt, closed);
    let ended = go(rt, again);
    farewell(rt, ended)
}

#[test]
fn a_path_from_contact_to_farewell(rt: HostRuntime) {
    let over = stay(&rt, SCRIPT);
    let (guest, host) = (&over.guest, &over.host);
    check(&rt, guest.done() && host.done());
    check(
        &rt,
        guest.version() == Some(Version(0x4_0001)) && host.version() == guest.version(),
    );
    check(
        &rt,
        guest.posted().len() == host.fed().len() && host.posted().len() == guest.fed().len(),
    );
    check(&rt, over.to_host.left() == 0 && over.to_guest.left() == 0);
    check(
        &rt,
        guest.state(1) == Some(State::Released) && host.state(1) == Some(State::Released),
    );
    check(
        &rt,
        guest.state(2) == Some(State::Closed) && host.state(2) == Some(State::Closed),
    );
    check(
        &rt,
        guest.state(6) == Some(State::Released) && guest.state(7).is_none(),
    );
    drop(over);
}

// Two phases: a disk with a sub-channel and a heartbeat are moved, and the heartbeat is closed; then the
// disk is moved again, and rescinded.
const ANSWERED: &[u8] =
    b"contact 5.3 5.3\noffer disk a 64 1\noffer hb b\nmodify b 63\nmodify a 5\nclose b\nphase\nmodify a 7\nrescind a after 0\n";

const UNANSWERED: &[u8] =
    b"contact 5.3 5.2\noffer disk a 64 1\noffer hb b\nmodify b 63\nmodify a 5\nclose b\nphase\nmodify a 7\nrescind a after 0\n";

const FIRST_TOLD: &[u8] =
    b"contact 4.1 5.3\noffer disk a 64 1\noffer hb b\nmodify b 63\nmodify a 5\nclose b\nphase\nmodify a 7\nrescind a after 0\n";

const UNSUPPORTED: &[u8] =
    b"contact 4.0 5.3\noffer disk a 64 1\noffer hb b\nmodify b 63\nmodify a 5\nclose b\nphase\nmodify a 7\nrescind a after 0\n";

// What the tests tell messages by: the type, relid or handle, and processor.
type Told = (u32, u32, u32);

fn told(m: &Msg) -> Told {
    match m {
        Msg::OfferChannel { relid, .. } => (1, *relid, 0),
        Msg::RescindChannelOffer { relid, .. } => (2, *relid, 0),
        Msg::RequestOffers { .. } => (3, 0, 0),
        Msg::AllOffersDelivered { .. } => (4, 0, 0),
        Msg::OpenChannel { relid, .. } => (5, *relid, 0),
        Msg::OpenChannelResult { relid, .. } => (6, *relid, 0),
        Msg::CloseChannel { relid, .. } => (7, *relid, 0),
        Msg::GpadlHeader(h) => (8, h.relid, 0),
        Msg::GpadlCreated { relid, .. } => (10, *relid, 0),
        Msg::GpadlTeardown { relid, .. } => (11, *relid, 0),
        Msg::GpadlTorndown { gpadl, .. } => (12, *gpadl, 0),
        Msg::RelidReleased { relid, .. } => (13, *relid, 0),
        Msg::InitiateContact { .. } => (14, 0, 0),
        Msg::VersionResponse { .. } => (15, 0, 0),
        Msg::Unload { .. } => (16, 0, 0),
        Msg::UnloadResponse { .. } => (17, 0, 0),
        Msg::ModifyChannel {
            relid,
            target_vp,
            ..
        } => (22, *relid, *target_vp),
        Msg::ModifyChannelResponse { relid, .. } => (24, *relid, 0),
        _ => (0, 0, 0),
    }
}

const GPADL: u32 = 0xe1e10;

// What the guest says from its accepted version on.
const GUEST_SAYS: &[Told] = &[
    (14, 0, 0),
    (3, 0, 0),
    (8, 1, 0),
    (5, 1, 0),
    (8, 3, 0),
    (5, 3, 0),
    (8, 2, 0),
    (5, 2, 0),
    (22, 1, 5),
    (22, 2, 63),
    (7, 3, 0),
    (11, 3, 0),
    (13, 3, 0),
    (7, 1, 0),
    (11, 1, 0),
    (7, 2, 0),
    (11, 2, 0),
    (8, 1, 0),
    (5, 1, 0),
    (8, 4, 0),
    (5, 4, 0),
    (22, 1, 7),
    (13, 4, 0),
    (13, 1, 0),
    (16, 0, 0),
];

// And the host.
const HOST_SAYS: &[Told] = &[
    (15, 0, 0),
    (1, 1, 0),
    (1, 2, 0),
    (4, 0, 0),
    (10, 1, 0),
    (6, 1, 0),
    (1, 3, 0),
    (10, 3, 0),
    (6, 3, 0),
    (10, 2, 0),
    (6, 2, 0),
    (24, 1, 0),
    (24, 2, 0),
    (12, GPADL + 1, 0),
    (2, 3, 0),
    (12, GPADL, 0),
    (12, GPADL + 2, 0),
    (10, 1, 0),
    (6, 1, 0),
    (1, 4, 0),
    (10, 4, 0),
    (6, 4, 0),
    (24, 1, 0),
    (2, 4, 0),
    (2, 1, 0),
    (17, 0, 0),
];

// A side said these, but for those of one type, and nothing else, behind so many messages.
fn check_said(rt: &impl Abort, behind: usize, posted: &[Msg], says: &[Told], left_out: u32) {
    let mut said = posted.iter();
    for _i in 0..behind {
        check(rt, said.next().is_some());
    }
    for want in says {
        if want.0 != left_out {
            check(rt, said.next().map(told) == Some(*want));
        }
    }
    check(rt, said.next().is_none());
}

// Both sides said all this, and were fed it: the guest with or without MODIFYCHANNEL, and the host with
// or without the answers to it, behind the versions that the host refused.
fn check_both(rt: &impl Abort, over: &PathOver, refused: usize, moves: bool, answers: bool) {
    let (guest, host) = (&over.guest, &over.host);
    let no_moves = if moves { 0 } else { 22 };
    let no_answers = if answers { 0 } else { 24 };
    check_said(rt, refused, guest.posted(), GUEST_SAYS, no_moves);
    check_said(rt, refused, host.fed(), GUEST_SAYS, no_moves);
    check_said(rt, refused, host.posted(), HOST_SAYS, no_answers);
    check_said(rt, refused, guest.fed(), HOST_SAYS, no_answers);
    check(
        rt,
        guest.state(1) == Some(State::Released) && host.state(1) == Some(State::Released),
    );
    check(
        rt,
        guest.state(2) == Some(State::Closed) && host.state(2) == Some(State::Closed),
    );
}

// All parts of a script are run, and that is what both sides said.
fn check_stay<R: Abort + AllocGlobal + Threads + Wait + Sync>(
    rt: &R,
    script: &[u8],
    refused: usize,
    moves: bool,
    answers: bool,
) {
    let over = stay(rt, script);
    check_both(rt, &over, refused, moves, answers);
    drop(over);
}

#[test]
fn channels_are_moved(rt: HostRuntime) {
    check_stay(&rt, ANSWERED, 0, true, true);
    check_stay(&rt, UNANSWERED, 1, true, false);
    check_stay(&rt, FIRST_TOLD, 0, true, false);
    check_stay(&rt, UNSUPPORTED, 0, false, false);
}
