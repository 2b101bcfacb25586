//! What a channel comes to.
ghost use Rattle.std.specs.Prelude.{◌≡◌, ◌++◌, ◌⊎◌, []};
ghost use Rattle.worker_pair.specs.Leaving.{Leaves};
ghost use Rattle.bus_threads.specs.Pairs.{IsPaired, RunsPair};

use crate::{Pair, PairDone};
use ring_seat::finish;
use std::snapshot::Snapshot;
use worker_pair::{GuestSeat, HostSeat, WorkerDone};

// The list of the two that isn't empty.
fn either<T: Drop>(first: Vec<T>, second: Vec<T>) -> Vec<T>
    requires { (first.items ≡ []) ⊎ (second.items ≡ []) }
    ensures { result.items ≡ first.items ++ second.items }
{
    if first.is_empty() { second } else { first }
}

/// What a channel comes to, once both of its workers have ended. Neither ended for want of room: the one that asks sent no more packets than it has asks,
/// the one that serves made room for as many and sent no more than it got, and each lacks room only where more came than it made room for.
pub(crate) fn close(pair: &Snapshot<Pair>, guest: WorkerDone, host: WorkerDone) -> PairDone
    requires pair { IsPaired pair.now.value }
    requires guest { Leaves pair.now.value.guest guest }
    requires host { Leaves pair.now.value.host host }
    ensures { RunsPair pair.now.value result }
{
    PairDone {
        settled: finish(guest.end, host.end),
        guest_seat: GuestSeat::of_device(guest.seat),
        host_seat: HostSeat::of_device(host.seat),
        guest: guest.ended,
        host: host.ended,
        serials: either(guest.serials, host.serials),
        replies: either(guest.replies, host.replies),
    }
}
