//! The host's worker of a channel.
ghost use Rattle.worker_port.specs.Rooms.{broke};
ghost use Rattle.std.specs.Prelude.{◌≡◌, false, ◌≤◌, IfOk};
ghost use Rattle.io_edge.specs.declared.side.Side.TheVariants.{Host as HostSide};
ghost use Rattle.worker_port.specs.Line.{paged_end};
ghost use Rattle.worker_pair.specs.Pairs.{pages_on};
ghost use Rattle.worker_pair.specs.Leaving.{Leaves, of_host};
ghost use Rattle.worker_pair.specs.Plans.{CanPlan, HasSeat, IsMade, planned};
ghost use Rattle.worker_pair.specs.Seats.{IsAt, at_host};
ghost use Rattle.worker_pair.specs.Workers.{Caused, GoesOn, IsLive, IsOfSide, Tried, Turned, end_at};

use crate::making::make_worker;
use crate::{ChannelPlan, HostDone, HostSeat, Worker, WorkerDone};
use bus_script::Ask;
use io_edge::{Gate, Side};
use ring_seat::HostEnd;
use std::alloc::{AllocError, Global};
use std::marker::Model;
use std::sync::Wait;
use worker_port::Turn;

/// The worker of the host's end of a channel. It serves a disk or a network's adapter, and asks for heartbeats, shutdowns and key-value exchange.
#[derive(Drop)]
pub struct HostWorker {
    worker: Worker,
}

impl Model for HostWorker {
    ghost use Rattle.io_edge.specs.declared.side.Side.TheVariants.{Host as HostSide};
    ghost use Rattle.worker_pair.specs.Workers.{IsOfSide};
    ghost use Rattle.worker_pair.specs.declared.worker.Worker.{Worker as OneWorker};

    ghost Value = { OneWorker };

    ghost view = { λ w. w.worker };

    ghost invariant = { λ w. IsOfSide HostSide w.worker };
}

impl HostWorker {
    /// A worker over a new end of the host, and a new seat where it serves; where it asks, it asks these. It takes all memory that the phase needs.
    pub fn make(
        alloc: Global,
        end: HostEnd,
        seat: HostSeat,
        plan: ChannelPlan,
        asks: Vec<Ask>,
    ) -> Result<HostWorker, AllocError>
        requires plan { CanPlan HostSide (planned plan asks.items) }
        requires seat { HasSeat HostSide (planned plan asks.items) (at_host seat) }
        requires fresh { end.state ≡ paged_end (pages_on plan.kind plan.window) end.state.machine.cells HostSide }
        requires size { (512 ≤ end.state.machine.cells) × (end.state.machine.cells ≤ 16777216) }
        ensures made { IfOk result (IsMade (planned plan asks.items) (at_host seat)) }
        ensures end { IfOk result (λ w. ((end_at w).state ≡ end.state) × ((end_at w).seat ≡ end.seat)) }
        ensures live { IfOk result IsLive }
    {
        let seat = seat.into_device();
        let worker = make_worker(alloc, Side::Host, end, seat, plan, asks)?;
        Ok(HostWorker::over(worker))
    }

    /// A turn. An end that is asleep polls its signal. Otherwise the worker takes a packet, sends one, serves one, ends, or falls asleep.
    pub fn turn<R: Wait, G: Gate>(&mut self, rt: &R, gate: &G) -> Turn
        requires { IsLive self.old }
        ensures turned { Turned result self.new }
        ensures cause { Caused result self.old self.new }
        ensures tried { Tried result self.old self.new }
        ensures honest { broke result ≡ false }
        ensures on { GoesOn self.old self.new }
    {
        self.worker.turn(rt, gate)
    }

    /// Takes turns, and sleeps after a turn that found nothing to do, until the worker has ended.
    pub fn run<R: Wait, G: Gate>(self, rt: &R, gate: &G) -> HostDone
        requires { IsLive self }
        ensures { Leaves self (of_host result) }
    {
        host_done(self.into_worker().run(rt, gate))
    }

    /// A worker of the host's side, as one.
    pub(crate) fn over(worker: Worker) -> HostWorker
        requires { IsOfSide HostSide worker }
        ensures { result ≡ worker }
    {
        HostWorker { worker }
    }

    /// The same, as the worker of an end of either side.
    pub fn into_worker(self) -> Worker
        ensures same { result ≡ self }
        ensures side { IsOfSide HostSide result }
    {
        let HostWorker { worker } = self;
        worker
    }
}

/// What a host's worker leaves.
pub(crate) fn host_done(done: WorkerDone) -> HostDone
    requires { IsAt HostSide done.seat }
    ensures { of_host result ≡ done }
{
    HostDone {
        end: done.end,
        seat: HostSeat::of_device(done.seat),
        ended: done.ended,
        serials: done.serials,
        replies: done.replies,
    }
}
