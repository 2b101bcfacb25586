//! What both ends of a socket wrote and read, once they are at an end.
ghost use Rattle.std.specs.Prelude.{◌≡◌, None};
ghost use Rattle.ring_seat.specs.Settling.{AreOfOneChannel};
ghost use Rattle.hv_sock.specs.Streams.{ReadsOf, fault_in};

use crate::sock_end::SockEnd;
use ring_seat::{Settled, TableSeat};

/// Ends a channel, and takes no memory for it. In each direction what was read is the front of what was written, in whatever order the word steps of both ends
/// fell, and all of it where the end was read. No packet was refused. It waits for nobody.
pub fn finish(g: SockEnd<TableSeat>, h: SockEnd<TableSeat>) -> Settled
    requires one_channel { AreOfOneChannel g h }
    ensures guest { (result.guest_sent ≡ g.state.sent) × (result.guest_got ≡ g.state.got) }
    ensures host { (result.host_sent ≡ h.state.sent) × (result.host_got ≡ h.state.got) }
    ensures to_host { ReadsOf result.host_got result.guest_sent }
    ensures to_guest { ReadsOf result.guest_got result.host_sent }
    ensures whole { (fault_in result.host_got ≡ None) × (fault_in result.guest_got ≡ None) }
{
    ring_seat::finish(g.into_end(), h.into_end())
}
