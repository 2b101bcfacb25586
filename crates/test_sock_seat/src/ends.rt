//! Both ends of a socket, and their calls where they may be made.
ghost use Rattle.std.specs.Prelude.{◌≡◌, ◌≤◌};
ghost use Rattle.ring_seat.specs.Seats.{new_end};
ghost use Rattle.ring_seat.specs.Settling.{AreOfOneChannel, IsSameEnd};

use hv_sock::{Got, SockEnd};
use ring_core::{End, Room};
use ring_seat::{ChannelMem, TableSeat};
use std::alloc::AllocGlobal;
use std::process::Abort;

// The room of each list.
const ROOM: Room = Room {
    packets: 4,
    words: 2048,
};

// The end of a socket over a new end.
fn over(rt: &impl Abort, mut e: End<TableSeat>) -> SockEnd<TableSeat>
    requires fresh { e.state ≡ new_end e.state.machine.cells e.state.machine.side }
    requires size { 512 ≤ e.state.machine.cells }
    ensures { IsSameEnd e result }
{
    e.reserve(ROOM, ROOM).expect(rt, "memory");
    SockEnd::make(e)
}

/// Both ends of a new socket, over a channel whose rings have one page.
pub fn opened(rt: &(impl Abort + AllocGlobal)) -> (SockEnd<TableSeat>, SockEnd<TableSeat>)
    ensures { AreOfOneChannel result.0 result.1 }
{
    let (guest, host) = ChannelMem::make(rt.alloc(), 1, 0).expect(rt, "memory");
    (over(rt, guest), over(rt, host))
}

/// Whether these bytes may be written, and are.
pub fn writes(e: &mut SockEnd<TableSeat>, bytes: &[u8]) -> bool
    ensures { IsSameEnd e.old e.new }
{
    e.may_write(bytes.len()) && e.write(bytes).is_ok()
}

/// Whether the direction may be ended, and is.
pub fn shuts(e: &mut SockEnd<TableSeat>) -> bool
    ensures { IsSameEnd e.old e.new }
{
    e.may_shut() && e.shut().is_ok()
}

/// Whether a read may be made, and gives these bytes.
pub fn reads(e: &mut SockEnd<TableSeat>, want: &[u8]) -> bool
    ensures { IsSameEnd e.old e.new }
{
    let mut out = [0; 2048];
    e.may_read() && e.read(&mut out) == Ok(Got::Bytes(want.len())) && out.starts_with(want)
}

/// Whether a read may be made, and gives the end.
pub fn ends(e: &mut SockEnd<TableSeat>) -> bool
    ensures { IsSameEnd e.old e.new }
{
    let mut out = [0; 2048];
    e.may_read() && e.read(&mut out) == Ok(Got::End)
}
