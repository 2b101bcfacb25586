//! The guest's worker of a channel.
ghost use Rattle.worker_port.specs.Rooms.{broke};
ghost use Rattle.std.specs.Prelude.{◌≡◌, false, ◌≤◌, IfOk};
ghost use Rattle.io_edge.specs.declared.side.Side.TheVariants.{Guest as GuestSide};
ghost use Rattle.worker_port.specs.Line.{paged_end};
ghost use Rattle.worker_pair.specs.Pairs.{pages_on};
ghost use Rattle.worker_pair.specs.Leaving.{Leaves, of_guest};
ghost use Rattle.worker_pair.specs.Plans.{CanPlan, HasSeat, IsMade, planned};
ghost use Rattle.worker_pair.specs.Seats.{IsAt, at_guest};
ghost use Rattle.worker_pair.specs.Workers.{Caused, GoesOn, IsLive, IsOfSide, Tried, Turned, end_at};

use crate::making::make_worker;
use crate::{ChannelPlan, GuestDone, GuestSeat, Worker, WorkerDone};
use bus_script::Ask;
use io_edge::{Gate, Side};
use ring_seat::GuestEnd;
use std::alloc::{AllocError, Global};
use std::marker::Model;
use std::sync::Wait;
use worker_port::Turn;

/// The worker of the guest's end of a channel. It asks a disk or a network's adapter, and serves heartbeats and shutdowns.
#[derive(Drop)]
pub struct GuestWorker {
    worker: Worker,
}

impl Model for GuestWorker {
    ghost use Rattle.io_edge.specs.declared.side.Side.TheVariants.{Guest as GuestSide};
    ghost use Rattle.worker_pair.specs.Workers.{IsOfSide};
    ghost use Rattle.worker_pair.specs.declared.worker.Worker.{Worker as OneWorker};

    ghost Value = { OneWorker };

    ghost view = { λ w. w.worker };

    ghost invariant = { λ w. IsOfSide GuestSide w.worker };
}

impl GuestWorker {
    /// A worker over a new end of the guest, and a new seat where it serves; where it asks, it asks these. It takes all memory that the phase needs.
    pub fn make(
        alloc: Global,
        end: GuestEnd,
        seat: GuestSeat,
        plan: ChannelPlan,
        asks: Vec<Ask>,
    ) -> Result<GuestWorker, AllocError>
        requires plan { CanPlan GuestSide (planned plan asks.items) }
        requires seat { HasSeat GuestSide (planned plan asks.items) (at_guest seat) }
        requires fresh { end.state ≡ paged_end (pages_on plan.kind plan.window) end.state.machine.cells GuestSide }
        requires size { (512 ≤ end.state.machine.cells) × (end.state.machine.cells ≤ 16777216) }
        ensures made { IfOk result (IsMade (planned plan asks.items) (at_guest seat)) }
        ensures end { IfOk result (λ w. ((end_at w).state ≡ end.state) × ((end_at w).seat ≡ end.seat)) }
        ensures live { IfOk result IsLive }
    {
        let seat = seat.into_device();
        let worker = make_worker(alloc, Side::Guest, end, seat, plan, asks)?;
        Ok(GuestWorker::over(worker))
    }

    /// A turn. An end that is asleep polls its signal. Otherwise the worker takes a packet, sends one, serves one, ends, or falls asleep.
    pub fn turn<R: Wait, G: Gate>(&mut self, rt: &R, gate: &G) -> Turn
        requires { IsLive self.old }
        ensures turned { Turned result self.new }
        ensures cause { Caused result self.old self.new }
        ensures tried { Tried result self.old self.new }
        ensures honest { broke result ≡ false }
        ensures on { GoesOn self.old self.new }
    {
        self.worker.turn(rt, gate)
    }

    /// Takes turns, and sleeps after a turn that found nothing to do, until the worker has ended.
    pub fn run<R: Wait, G: Gate>(self, rt: &R, gate: &G) -> GuestDone
        requires { IsLive self }
        ensures { Leaves self (of_guest result) }
    {
        guest_done(self.into_worker().run(rt, gate))
    }

    /// A worker of the guest's side, as one.
    pub(crate) fn over(worker: Worker) -> GuestWorker
        requires { IsOfSide GuestSide worker }
        ensures { result ≡ worker }
    {
        GuestWorker { worker }
    }

    /// The same, as the worker of an end of either side.
    pub fn into_worker(self) -> Worker
        ensures same { result ≡ self }
        ensures side { IsOfSide GuestSide result }
    {
        let GuestWorker { worker } = self;
        worker
    }
}

/// What a guest's worker leaves.
pub(crate) fn guest_done(done: WorkerDone) -> GuestDone
    requires { IsAt GuestSide done.seat }
    ensures { of_guest result ≡ done }
{
    GuestDone {
        end: done.end,
        seat: GuestSeat::of_device(done.seat),
        ended: done.ended,
        serials: done.serials,
        replies: done.replies,
    }
}
