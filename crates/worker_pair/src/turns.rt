//! Both workers of a channel on one thread.
ghost use Rattle.std.specs.Prelude.{◌≡◌, false, Some};
ghost use Rattle.worker_requester.specs.Asking.{AsksOn};
ghost use Rattle.ring_seat.specs.Seats.{told_in};
ghost use Rattle.ring_seat.specs.declared.table_seat.TableSeat.{TableSeat};
ghost use Rattle.worker_server.specs.Serving.{ServesOn};
ghost use Rattle.worker_pair.specs.Leaving.{Leaves, LeavesAsked, LeavesServed, StandsAsking, StandsServing, of_guest, of_host};
ghost use Rattle.worker_pair.specs.Pairs.{ArePair};
ghost use Rattle.device_any.specs.Seats.{device_place};

use crate::guest_worker::guest_done;
use crate::host_worker::host_done;
use crate::worker::{ChannelRequester, ChannelServer, asked, served};
use crate::{GuestDone, GuestWorker, HostDone, HostWorker, Worker, WorkerDone};
use io_edge::Gate;
use std::sync::Wait;
use worker_port::{Ended, Turn};

// A turn of the end that asks, unless it has ended.
fn ask<G: Gate>(gate: &G, asker: &mut ChannelRequester, ended: Option<Ended>) -> Option<Ended>
    requires { StandsAsking ended asker.old }
    ensures stands { StandsAsking result asker.new }
    ensures on { AsksOn (λ (s : TableSeat). s.seat.table_id) (λ (s : TableSeat). Some (told_in s.seat.me.0)) asker.old asker.new }
{
    if ended.is_some() {
        return ended;
    }
    match asker.turn(gate) {
        Turn::Moved => None,
        Turn::Idle => None,
        Turn::Ended(how) => Some(how),
    }
}

// A turn of the end that serves, unless it has ended.
fn serve<R: Wait, G: Gate>(
    rt: &R,
    gate: &G,
    server: &mut ChannelServer,
    ended: Option<Ended>,
) -> Option<Ended>
    requires { StandsServing ended server.old }
    ensures stands { StandsServing result server.new }
    ensures on { ServesOn (λ s t. device_place t ≡ device_place s) (λ (s : TableSeat). s.seat.table_id) (λ (s : TableSeat). Some (told_in s.seat.me.0)) server.old server.new }
{
    if ended.is_some() {
        return ended;
    }
    match server.turn(rt, gate) {
        Turn::Moved => None,
        Turn::Idle => None,
        Turn::Ended(how) => Some(how),
    }
}

// What the end that asks leaves, once it has ended.
fn asker_done(asker: ChannelRequester, ended: Ended) -> WorkerDone
    requires { StandsAsking (Some ended) asker }
    ensures { LeavesAsked asker result }
{
    asked(asker.done(ended))
}

// And the end that serves.
fn server_done(server: ChannelServer, ended: Ended) -> WorkerDone
    requires { StandsServing (Some ended) server }
    ensures { LeavesServed server result }
{
    served(server.done(ended))
}

// The worker that asks and the one that serves, by turns, until both have ended.
fn by_turns<R: Wait, G: Gate>(
    rt: &R,
    gate: &G,
    mut asker: ChannelRequester,
    mut server: ChannelServer,
) -> (WorkerDone, WorkerDone)
    requires asker { asker.end.state.machine.marked ≡ false }
    requires server { server.end.state.machine.marked ≡ false }
    ensures asked { LeavesAsked asker result.0 }
    ensures served { LeavesServed server result.1 }
{
    let mut asked = None;
    let mut served = None;
    for _ in rt.forever() {
        asked = ask(gate, &mut asker, asked);
        served = serve(rt, gate, &mut server, served);
        if let (Some(a), Some(s)) = (asked, served) {
            return (asker_done(asker, a), server_done(server, s));
        }
    }
    unreachable!()
}

/// Runs the guest's worker and the host's of a channel by turns on this thread, until both have ended.
pub fn run_both<R: Wait, G: Gate>(
    rt: &R,
    gate: &G,
    guest: Worker,
    host: Worker,
) -> (WorkerDone, WorkerDone)
    requires { ArePair guest host }
    ensures guest { Leaves guest result.0 }
    ensures host { Leaves host result.1 }
{
    match (guest, host) {
        (Worker::Asks(asker), Worker::Serves(server)) => { by_turns(rt, gate, asker, server) }
        (Worker::Serves(server), Worker::Asks(asker)) => {
            let (asked, served) = by_turns(rt, gate, asker, server);
            (served, asked)
        }
        (Worker::Asks(_), Worker::Asks(_)) => unreachable!(),
        (Worker::Serves(_), Worker::Serves(_)) => unreachable!(),
    }
}

/// The same, where each worker is known by its side.
pub fn pump<R: Wait, G: Gate>(
    rt: &R,
    guest: GuestWorker,
    host: HostWorker,
    gate: &G,
) -> (GuestDone, HostDone)
    requires { ArePair guest host }
    ensures guest { Leaves guest (of_guest result.0) }
    ensures host { Leaves host (of_host result.1) }
{
    let (guest, host) = run_both(rt, gate, guest.into_worker(), host.into_worker());
    (guest_done(guest), host_done(host))
}
