//! The worker of one end of a channel, whichever side's. It asks or serves.
ghost use Rattle.worker_port.specs.Rooms.{broke};
ghost use Rattle.std.specs.Prelude.{◌≡◌, false, [], None, Some};
ghost use Rattle.worker_pair.specs.Leaving.{Leaves};
ghost use Rattle.worker_pair.specs.Workers.{Caused, GoesOn, IsLive, Tried, Turned};

use crate::WorkerDone;
use device_any::{DeviceProtocol, DeviceSeat};
use io_edge::Gate;
use ring_seat::TableSeat;
use std::sync::Wait;
use worker_port::Turn;
use worker_requester::{Requester, RequesterDone};
use worker_server::{Server, ServerDone};

/// The worker of the end that asks.
pub(crate) type ChannelRequester = Requester<DeviceProtocol, TableSeat>;

/// The worker of the end that serves.
pub(crate) type ChannelServer = Server<DeviceProtocol, DeviceSeat, TableSeat>;

/// The worker of one end of a channel, by what it does there.
#[derive(Drop)]
pub enum Worker {
    Asks(ChannelRequester),
    Serves(ChannelServer),
}

/// What a worker leaves that asked.
pub(crate) fn asked(done: RequesterDone<DeviceProtocol, TableSeat>) -> WorkerDone
    ensures end { (result.end ≡ done.end) × (result.ended ≡ done.ended) }
    ensures replies { result.replies.items ≡ done.replies.items }
    ensures others { (result.seat ≡ None) × (result.serials.items ≡ []) }
{
    let serials = Vec::new(*done.replies.allocator());
    WorkerDone {
        end: done.end,
        ended: done.ended,
        seat: None,
        serials,
        replies: done.replies,
    }
}

/// What a worker leaves that served.
pub(crate) fn served(done: ServerDone<DeviceProtocol, DeviceSeat, TableSeat>) -> WorkerDone
    ensures end { (result.end ≡ done.end) × (result.ended ≡ done.ended) }
    ensures seat { result.seat ≡ Some done.seat }
    ensures serials { result.serials.items ≡ done.serials.items }
    ensures others { result.replies.items ≡ [] }
{
    let replies = Vec::new(*done.serials.allocator());
    WorkerDone {
        end: done.end,
        ended: done.ended,
        seat: Some(done.seat),
        serials: done.serials,
        replies,
    }
}

impl Worker {
    /// A turn, by what the worker does.
    pub fn turn<R: Wait, G: Gate>(&mut self, rt: &R, gate: &G) -> Turn
        requires { IsLive self.old }
        ensures turned { Turned result self.new }
        ensures cause { Caused result self.old self.new }
        ensures tried { Tried result self.old self.new }
        ensures honest { broke result ≡ false }
        ensures on { GoesOn self.old self.new }
    {
        match self {
            Worker::Asks(asker) => asker.turn(gate),
            Worker::Serves(server) => server.turn(rt, gate),
        }
    }

    /// Takes turns, and sleeps between them, until the worker has ended.
    pub fn run<R: Wait, G: Gate>(self, rt: &R, gate: &G) -> WorkerDone
        requires { IsLive self }
        ensures { Leaves self result }
    {
        match self {
            Worker::Asks(asker) => asked(asker.run(rt, gate)),
            Worker::Serves(server) => served(server.run(rt, gate)),
        }
    }
}
