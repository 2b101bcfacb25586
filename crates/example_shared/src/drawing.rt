//! A device behind a lock that two threads call, and the one history of all calls.
ghost use Rattle.std.specs.Prelude.{◌≡◌, ◌+◌, ◌<◌, ◌≤◌, ◌^◌, ◌++◌, length, IfOk};
ghost use Rattle.hist_lock.specs.History.{entries_of};
ghost use Rattle.hist_lock.specs.Seat.{IsSame};
ghost use Rattle.example_shared.specs.Given.{GivenTo, asked};

use crate::numbers::Numbers;
use hist_lock::{HistLock, HistSeat, History};
use std::alloc::{AllocError, Global};
use std::sync::Wait;
use std::thread::{Threads, join};

// Calls the device for each of these, in order. A call waits until it is this seat's turn.
fn ask_all<R: Wait>(rt: &R, mut seat: HistSeat<Numbers>, asks: &[u32]) -> HistSeat<Numbers>
    requires { length asks.now ≤ seat.left }
    ensures same { IsSame seat result }
    ensures asked { asked result.calls ≡ asked seat.calls ++ asks.now }
{
    for many in asks {
        let _receipt = seat.with(rt, *many);
    }
    seat
}

/// Two threads ask for numbers, each for so many at a time as its list says. The answer is the device, and the history of all calls: both lists merged in some
/// order, with what each call got. The refusal is want of memory.
pub fn draw<R: Threads + Wait + Sync>(
    rt: &R,
    alloc: Global,
    one: &[u32],
    other: &[u32],
) -> Result<(Numbers, History<Numbers>), AllocError>
    requires { length one.now + length other.now < 2 ^ 32 }
    ensures { IfOk result (λ r. GivenTo one.now other.now (entries_of r.1)) }
{
    let quotas = [one.len() as u32, other.len() as u32];
    let mut seats = HistLock::make(alloc, Numbers::make(), &quotas)?;
    let (Some(last), Some(first)) = (seats.pop(), seats.pop()) else {
        unreachable!()
    };
    let (first, last) = join(
        rt,
        move || -> HistSeat<Numbers>
            requires { length one.now ≤ first.left }
            ensures same { IsSame first result }
            ensures asked { asked result.calls ≡ asked first.calls ++ one.entry.now }
        { ask_all(rt, first, one) },
        move || -> HistSeat<Numbers>
            requires { length other.now ≤ last.left }
            ensures same { IsSame last result }
            ensures asked { asked result.calls ≡ asked last.calls ++ other.entry.now }
        { ask_all(rt, last, other) },
    );
    seats.push_reserved(first);
    seats.push_reserved(last);
    Ok(HistLock::close(seats))
}
