//! The workers of a register, run once.
ghost use Rattle.std.specs.Prelude.{◌≡◌, ◌<◌, ◌^◌, length, true};

use crate::{RegisterProtocol, RegisterSeat, store_all};
use ring_seat::TableSeat;
use std::alloc::AllocGlobal;
use std::process::Abort;
use worker_port::Ended;
use worker_requester::RequesterDone;
use worker_server::ServerDone;

/// Stops the test unless this holds.
fn check(rt: &impl Abort, holds: bool)
    ensures { holds ≡ true }
{
    assert!(rt; holds);
}

// The values 5 to 14.
fn values(rt: &(impl Abort + AllocGlobal)) -> Vec<u64>
    ensures { length result.items < 2 ^ 32 }
{
    let values = [5, 6, 7, 8, 9, 10, 11, 12, 13, 14];
    values.to_vec(rt.alloc()).expect(rt, "memory")
}

// Each reply is the value that was stored before.
fn check_asked(rt: &impl Abort, asked: &RequesterDone<RegisterProtocol, TableSeat>) {
    let replies = [0, 5, 6, 7, 8, 9, 10, 11, 12, 13];
    check(rt, asked.ended == Ended::Marked);
    check(rt, asked.replies.as_slice() == replies.as_slice());
}

fn check_served(rt: &impl Abort, served: &ServerDone<RegisterProtocol, RegisterSeat, TableSeat>) {
    let serials = [0, 1, 2, 3, 4, 5, 6, 7, 8, 9];
    check(rt, served.ended == Ended::PeerMarked);
    check(rt, served.serials.as_slice() == serials.as_slice());
}

#[test]
fn a_register_gives_what_it_held(rt: HostRuntime) {
    let (asked, served) = store_all(&rt, rt.alloc(), values(&rt)).expect(&rt, "memory");
    check_asked(&rt, &asked);
    check_served(&rt, &served);
}
