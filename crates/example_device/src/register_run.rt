//! A register behind both workers of a channel, each on a thread of its own.
ghost use Rattle.std.specs.Prelude.{◌≡◌, ◌≤◌, ◌^◌, ◌<◌, false, length, IfOk};
ghost use Rattle.io_edge.specs.declared.side.Side.TheVariants.{Guest as GuestSide, Host as HostSide};
ghost use Rattle.worker_requester.specs.Asking.{AsksBy};
ghost use Rattle.ring_seat.specs.Seats.{new_end};
ghost use Rattle.worker_port.specs.Line.{past_as};
ghost use Rattle.example_device.specs.Registers.{register_items};

use crate::register::Register;
use crate::register_protocol::RegisterProtocol;
use crate::register_seat::RegisterSeat;
use hist_lock::HistLock;
use io_edge::{NoGate, Side};
use ring_seat::{ChannelMem, GuestEnd, HostEnd, TableSeat};
use std::alloc::{AllocError, Global};
use std::sync::Wait;
use std::thread::{Threads, join};
use worker_requester::{Requester, RequesterDone};
use worker_server::{Server, ServerDone};

/// What the guest's worker left, and the host's.
pub type Stored = (
    RequesterDone<RegisterProtocol, TableSeat>,
    ServerDone<RegisterProtocol, RegisterSeat, TableSeat>,
);

// The only place at a register, for so many calls.
fn only_seat(alloc: Global, calls: u32) -> Result<RegisterSeat, AllocError>
    ensures { IfOk result (λ s. s.seat.left ≡ calls) }
{
    let mut seats = HistLock::make(alloc, Register::make(), &[calls])?;
    let Some(seat) = seats.pop() else {
        unreachable!()
    };
    Ok(RegisterSeat::over(seat))
}

// The guest's worker: it stores the values, with at most 8 requests open.
fn guest_worker(
    alloc: Global,
    end: GuestEnd,
    values: Vec<u64>,
) -> Result<Requester<RegisterProtocol, TableSeat>, AllocError>
    requires few { length values.items < 2 ^ 32 }
    requires fresh { end.state ≡ new_end 512 GuestSide }
    ensures values { IfOk result (λ w. w.protocol.values.items ≡ values.items) }
    ensures live { IfOk result (λ w. w.end.state.machine.marked ≡ false) }
{
    let protocol = RegisterProtocol { values, starts: 0 };
    Requester::make(alloc, protocol, end, Side::Guest, 1, 8)
}

// The host's worker: it serves so many requests.
fn host_worker(
    alloc: Global,
    end: HostEnd,
    seat: RegisterSeat,
    count: u32,
) -> Result<Server<RegisterProtocol, RegisterSeat, TableSeat>, AllocError>
    requires calls { count ≤ seat.seat.left }
    requires fresh { end.state ≡ new_end 512 HostSide }
    ensures live { IfOk result (λ w. w.end.state.machine.marked ≡ false) }
{
    let protocol = RegisterProtocol {
        values: Vec::new(alloc),
        starts: 0,
    };
    Server::make(
        alloc,
        protocol,
        end,
        seat,
        Side::Host,
        1,
        0,
        count,
        false,
        false,
        count,
    )
}

// Each worker runs on a thread of its own, and ends after the other one.
fn run<R: Threads + Wait + Sync>(
    rt: &R,
    guest: Requester<RegisterProtocol, TableSeat>,
    host: Server<RegisterProtocol, RegisterSeat, TableSeat>,
) -> Stored
    requires guest { guest.end.state.machine.marked ≡ false }
    requires host { host.end.state.machine.marked ≡ false }
    ensures { AsksBy register_items result.0.ended guest.protocol.values.items (past_as (λ i. i) result.0.end.state) result.0.replies.items }
{
    join(
        rt,
        move ||
            requires { guest.end.state.machine.marked ≡ false }
            ensures { AsksBy register_items result.ended guest.protocol.values.items (past_as (λ i. i) result.end.state) result.replies.items }
        { guest.run(rt, &NoGate) },
        move ||
            requires { host.end.state.machine.marked ≡ false }
        { host.run(rt, &NoGate) },
    )
}

/// The guest stores values in the host's register, in order, with at most 8 requests open.
pub fn store_all<R: Threads + Wait + Sync>(
    rt: &R,
    alloc: Global,
    values: Vec<u64>,
) -> Result<Stored, AllocError>
    requires { length values.items < 2 ^ 32 }
    ensures asked { IfOk result (λ r. AsksBy register_items r.0.ended values.items (past_as (λ i. i) r.0.end.state) r.0.replies.items) }
{
    let count = values.len() as u32;
    let seat = only_seat(alloc, count)?;
    let (guest_end, host_end) = ChannelMem::make(alloc, 1, 0)?;
    let guest = match guest_worker(alloc, guest_end, values) {
        Ok(guest) => guest,
        Err(refused) => {
            drop(seat);
            drop(host_end);
            return Err(refused);
        }
    };
    match host_worker(alloc, host_end, seat, count) {
        Ok(host) => Ok(run(rt, guest, host)),
        Err(refused) => {
            drop(guest);
            Err(refused)
        }
    }
}
