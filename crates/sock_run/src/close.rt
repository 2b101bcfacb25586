//! What a channel comes to.
ghost use Rattle.sock_run.specs.Pairs.{ArePair};
ghost use Rattle.sock_run.specs.Runs.{IsSockRun};
ghost use Rattle.sock_workers.specs.Workers.{GuestLeaves, HostLeaves};

use crate::pair::SockPair;
use crate::run::SockRun;
use ring_seat::finish;
use sock_workers::{GuestDone, HostDone};
use std::snapshot::Snapshot;

/// What a channel comes to, once both of its workers have ended. Each read the end of the other one and ended its own direction: room was made for the packets of
/// the input, no other packet comes, and neither marks itself before.
pub(crate) fn close(pair: &Snapshot<SockPair>, guest: GuestDone, host: HostDone) -> SockRun
    requires pair { ArePair pair.now.value }
    requires guest { GuestLeaves pair.now.value.guest guest.ended guest.output.items guest.end }
    requires host { HostLeaves pair.now.value.host host.ended host.end }
    ensures { IsSockRun pair.now.value.guest.input result.output.items result.settled }
{
    // For the proof: what a value keeps is known where the value is read.
    let _pair = pair;
    SockRun {
        settled: finish(guest.end, host.end),
        output: guest.output,
    }
}
