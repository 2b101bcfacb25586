//! The two workers of a channel.
ghost use Rattle.std.specs.Prelude.{◌≡◌};
ghost use Rattle.bus_threads.specs.Pairs.{IsPaired, RunsPair, serving_of};

use crate::close::close;
use bus_script::Reply;
use device_any::DeviceSeat;
use io_edge::Gate;
use ring_seat::Settled;
use std::marker::Model;
use std::snapshot::Snapshot;
use std::sync::Wait;
use worker_pair::{GuestSeat, GuestWorker, HostSeat, HostWorker, Worker, run_both};
use worker_port::Ended;

/// The two workers of a channel, before they run. They have the ends of one channel, one asks and the other serves, and the one that serves made room for
/// all that comes.
pub struct Pair {
    pub guest: GuestWorker,
    pub host: HostWorker,
}

// By this a pair goes by one call wherever it goes, and its parts go here alone.
impl Drop for Pair {
    fn drop(self) {
        let Pair { guest, host } = self;
        drop(guest);
        drop(host);
    }
}

impl Model for Pair {
    ghost use Rattle.worker_pair.specs.Pairs.{ArePair};
    ghost use Rattle.bus_threads.specs.Pairs.{Pairing};

    ghost Value = { Pairing };

    ghost view = { λ p. record { guest = p.guest; host = p.host } };

    ghost invariant = { λ p. ArePair p.guest p.host };
}

impl Pair {
    /// Both, as workers of either side.
    pub(crate) fn into_workers(self) -> (Worker, Worker)
        ensures pair { IsPaired self }
        ensures same { (result.0 ≡ self.guest) × (result.1 ≡ self.host) }
    {
        let Pair { guest, host } = self;
        (guest.into_worker(), host.into_worker())
    }
}

/// What the two workers of a channel leave: what both ends sent and got, their seats, how they ended, and the serials and replies of the script's
/// requests.
pub struct PairDone {
    pub settled: Settled,
    pub guest_seat: GuestSeat,
    pub host_seat: HostSeat,
    pub guest: Ended,
    pub host: Ended,
    pub serials: Vec<u32>,
    pub replies: Vec<Reply>,
}

// So does what a pair leaves.
impl Drop for PairDone {
    fn drop(self) {
        let (settled, guest_seat, host_seat, serials, replies) = self.into_parts();
        drop(settled);
        drop(guest_seat);
        drop(host_seat);
        drop(serials);
        drop(replies);
    }
}

impl PairDone {
    /// What both ends sent and got, their seats, and the serials and replies.
    pub fn into_parts(self) -> (Settled, GuestSeat, HostSeat, Vec<u32>, Vec<Reply>)
        ensures { result ≡ (self.settled, self.guest_seat, self.host_seat, self.serials, self.replies) }
    {
        let PairDone {
            settled,
            guest_seat,
            host_seat,
            guest: _,
            host: _,
            serials,
            replies,
        } = self;
        (settled, guest_seat, host_seat, serials, replies)
    }
}

/// The seat of the end that served.
pub fn serving_seat(guest: GuestSeat, host: HostSeat) -> Option<DeviceSeat>
    ensures { result ≡ serving_of guest host }
{
    match guest.into_device() {
        None => host.into_device(),
        Some(seat) => Some(seat),
    }
}

/// Runs both workers of a channel by turns on this thread.
pub fn run_pair<R: Wait, G: Gate>(rt: &R, gate: &G, pair: Pair) -> PairDone
    ensures { RunsPair pair result }
{
    let whole = Snapshot::of(&pair);
    let (guest, host) = pair.into_workers();
    let (guest, host) = run_both(rt, gate, guest, host);
    close(&whole, guest, host)
}
