//! Both ends of a channel, and their calls.
ghost use Rattle.std.specs.Prelude.{◌≡◌};
ghost use Rattle.ring_seat.specs.Whole.{new_paged};

use bench_end_loops::{Port, Sent, Took};
use ring_core::{Armed, End, SendRefusal, Side, Signalled, TakeRefusal, is_packet};
use ring_lean_end::DriverEnd;
use ring_seat::{ChannelMem, TableSeat};
use ring_sleep::Parks;
use std::alloc::{AllocError, Global};
use std::sync::Wait;

/// The bytes of a ring's data: 16 pages.
const RING: u32 = 65_536;

/// An end on atomic words that keeps no packet.
#[derive(Drop)]
pub struct DriverPort {
    end: DriverEnd<TableSeat>,
}

// Over the seat of a new end.
fn port_of(alloc: Global, end: End<TableSeat>, side: Side) -> Result<DriverPort, AllocError>
    requires { end.state ≡ new_paged 8192 0 side }
{
    // For the proof: what a value keeps is known where the value is read.
    let _seat = end.seat();
    end.items_fit();
    let (seat, sent, got) = end.into_parts();
    drop(sent);
    drop(got);
    let end = DriverEnd::make(alloc, side, RING, seat)?;
    Ok(DriverPort { end })
}

impl Port for DriverPort {
    fn pair(
        alloc: Global,
        _words: u64,
        _count: u64,
    ) -> Result<(DriverPort, DriverPort), AllocError> {
        let (guest, host) = ChannelMem::make(alloc, 16, 0)?;
        let guest = match port_of(alloc, guest, Side::Guest) {
            Ok(guest) => guest,
            Err(refused) => {
                drop(host);
                return Err(refused);
            }
        };
        match port_of(alloc, host, Side::Host) {
            Ok(host) => Ok((guest, host)),
            Err(refused) => {
                drop(guest);
                Err(refused)
            }
        }
    }

    fn send(&mut self, p: &[u64]) -> Sent {
        let e = &mut self.end;
        if e.is_asleep()
            || e.is_marked()
            || !is_packet(p)
            || p.len() > 8192
            || !e.fits(p.len() as u32)
        {
            return Sent::Refused;
        }
        match e.send(p) {
            Ok(Signalled::Quiet) => Sent::Quiet,
            Ok(Signalled::Raised) => Sent::Raised,
            Err(SendRefusal::Full { .. }) => Sent::Full,
            Err(_) => Sent::Refused,
        }
    }

    fn take(&mut self) -> Took {
        let e = &mut self.end;
        if e.is_asleep() || e.is_marked() {
            return Took::Refused;
        }
        match e.take() {
            Ok(()) => match e.commit() {
                Signalled::Quiet => Took::Quiet,
                Signalled::Raised => Took::Raised,
            },
            Err(TakeRefusal::Empty { .. }) => Took::Empty,
            Err(_) => Took::Refused,
        }
    }

    fn arm(&mut self) -> bool {
        let e = &mut self.end;
        if e.is_asleep() || e.is_marked() || e.broken().is_some() {
            return false;
        }
        e.commit();
        matches!(e.arm(None), Armed::Asleep)
    }

    fn poll(&mut self) -> bool {
        let e = &mut self.end;
        e.is_asleep() && !e.is_marked() && e.broken().is_none() && e.poll_signal()
    }

    fn park<R: Wait>(&self, rt: &R) {
        self.end.seat().park(rt);
    }
}
