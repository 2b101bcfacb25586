//! Every front of every kind of message: too short, but a page list's body that ends between two frames.
ghost use Rattle.std.specs.Prelude.{◌<◌, length, IfOk};
ghost use Rattle.vmbus_msg.specs.Grammar.{bytes_of_message};

use crate::check::check;
use crate::vmbus_msg_tests::MESSAGES;
use std::process::Abort;
use vmbus_msg::{Msg, MsgFault, decode};
use vmbus_msg_truncated::read_prefix;

// How many frames the first bytes of a message hold, none where they are too short for one.
fn frames_in(m: &Msg, n: usize) -> Option<usize>
    requires { n < length (bytes_of_message m.now) }
{
    match read_prefix(m, n) {
        Ok(Msg::GpadlBody(body)) => Some(body.frames.len()),
        _ => None,
    }
}

// The bytes that the first bytes of a message need.
fn need_of(m: &Msg, n: usize) -> Option<u32>
    requires { n < length (bytes_of_message m.now) }
{
    match read_prefix(m, n) {
        Err(MsgFault::Short { need, .. }) => Some(need),
        _ => None,
    }
}

// How many fronts of these bytes are a body of fewer frames, and how many are too short.
fn fronts_of(bytes: &[u8]) -> (usize, usize) {
    let mut bodies = 0usize;
    let mut short = 0usize;
    if let Ok(m) = decode(bytes) {
        for n in 0..bytes.len() {
            match frames_in(&m, n) {
                Some(frames) => {
                    if n == frames.wrapping_mul(8).wrapping_add(16) {
                        bodies = bodies.wrapping_add(1);
                    }
                }
                None => {
                    if need_of(&m, n).is_some() {
                        short = short.wrapping_add(1);
                    }
                }
            }
        }
    }
    (bodies, short)
}

#[test]
fn fronts_are_short_or_bodies(rt: HostRuntime) {
    let mut bodies = 0usize;
    let mut short = 0usize;
    let mut all = 0usize;
    for bytes in MESSAGES {
        let fronts = fronts_of(bytes);
        bodies = bodies.wrapping_add(fronts.0);
        short = short.wrapping_add(fronts.1);
        all = all.wrapping_add(bytes.len());
    }
    // A body of 2 frames has one such front, and one of 28 has 27.
    check(&rt, bodies == 28);
    check(&rt, short == all.wrapping_sub(28));
}

// The bytes that a front of this message needs, so many bytes of it.
fn need_at(bytes: &[u8], n: usize) -> Option<u32> {
    let Ok(m) = decode(bytes) else {
        return None;
    };
    if n < bytes.len() {
        need_of(&m, n)
    } else {
        None
    }
}

// Of a message its place among the others and how many bytes of it came, and how many are needed.
const NEEDS: [(usize, usize, u32); 7] = [
    (0, 7, 8),
    (0, 8, 196),
    (15, 27, 28),
    (15, 28, 44),
    (16, 28, 236),
    (18, 23, 24),
    (18, 25, 32),
];

#[test]
fn a_front_tells_what_it_needs(rt: HostRuntime) {
    for (place, n, need) in NEEDS {
        let bytes = MESSAGES.get(place).expect(&rt, "a message");
        check(&rt, need_at(bytes, n) == Some(need));
    }
}
