//! The seat of a device that has one channel.
ghost use Rattle.std.specs.Prelude.{◌≡◌, [], IfOk};

use hist_lock::{HistLock, HistSeat, Machine};
use std::alloc::{AllocError, Global};

/// The only seat of a machine's lock, for so many calls.
pub fn only_seat<M: Machine>(
    alloc: Global,
    machine: M,
    quota: u32,
) -> Result<HistSeat<M>, AllocError>
    requires { M.first machine ≡ machine }
    ensures left { IfOk result (λ seat. seat.left ≡ quota) }
    ensures calls { IfOk result (λ seat. seat.calls ≡ []) }
{
    let mut seats = HistLock::make(alloc, machine, &[quota])?;
    let Some(seat) = seats.pop() else {
        unreachable!()
    };
    drop(seats);
    Ok(seat)
}
