//! A register served at an end whose peer may write anything at any moment.
ghost use Rattle.std.specs.Prelude.{◌≡◌, ◌≤◌, IfOk};
ghost use Rattle.hist_lock.specs.History.{entries_of};
ghost use Rattle.worker_port.specs.Line.{new_end};
ghost use Rattle.example_device.specs.Beside.{StoresCopies};

use crate::register::Register;
use crate::register_protocol::RegisterProtocol;
use crate::register_seat::RegisterSeat;
use hist_lock::{HistLock, History};
use io_edge::{NoGate, Side};
use ring_core::End;
use ring_sleep::Parks;
use std::alloc::{AllocError, Global};
use std::sync::Wait;
use worker_port::Ended;
use worker_server::Server;

/// What a worker left that served a register: its end, how it ended, and the register's history.
#[derive(Drop)]
pub struct Served<E: Parks> {
    pub end: End<E>,
    pub ended: Ended,
    pub history: History<Register>,
}

/// Serves the stores that come to a new end, at most `count` of them, until the worker has ended: behind the peer's mark, at the first request past `count`
/// (`Room`), or where the peer wrote what is in no form (`Broken`, with the value that the end refused). It sleeps while nothing comes.
pub fn serve_register<E: Parks + Drop, R: Wait>(
    rt: &R,
    alloc: Global,
    end: End<E>,
    side: Side,
    count: u32,
) -> Result<Served<E>, AllocError>
    requires fresh { end.state ≡ new_end end.state.machine.cells side }
    requires size { (512 ≤ end.state.machine.cells) × (end.state.machine.cells ≤ 16777216) }
    ensures { IfOk result (λ s. StoresCopies E.tale s.end (entries_of s.history)) }
{
    let mut seats = HistLock::make(alloc, Register::make(), &[count])?;
    let Some(seat) = seats.pop() else {
        unreachable!()
    };
    let protocol = RegisterProtocol {
        values: Vec::new(alloc),
        starts: 0,
    };
    let server = Server::make(
        alloc,
        protocol,
        end,
        RegisterSeat::over(seat),
        side,
        1,
        0,
        count,
        false,
        false,
        count,
    )?;
    let done = server.run(rt, &NoGate);
    seats.push_reserved(done.seat.seat);
    let (_, history) = HistLock::close(seats);
    Ok(Served {
        end: done.end,
        ended: done.ended,
        history,
    })
}
