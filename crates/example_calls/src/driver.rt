//! Two ends for drivers that run for days: a packet goes through both, and neither keeps it.
ghost use Rattle.std.specs.Prelude.{◌≡◌, ◌++◌, ◌∷◌, [], IsTrue, false};
ghost use Rattle.example_calls.specs.Calls.{IsFree, CanPass, FailsToPass};

use ring_core::{Seatlike, is_packet};
use ring_lean_end::DriverEnd;

/// Whether an end may make each call but a poll.
pub fn is_free<S: Seatlike>(end: &DriverEnd<S>) -> bool
    ensures free { IsTrue result → IsFree end.now }
    ensures only { IsFree end.now → IsTrue result }
{
    !end.is_asleep() && !end.is_marked() && end.broken().is_none()
}

/// Sends a packet by the one end, takes a packet by the other one, and gives its room back. Whether the same words came out. Where both ends are free and the
/// packet fits, all of that is tried: false comes then only where the send was refused, or the take, or other words came.
pub fn pass_one<S: Seatlike, T: Seatlike>(
    from: &mut DriverEnd<S>,
    to: &mut DriverEnd<T>,
    packet: &[u64],
) -> bool
    ensures sent { IsTrue result → from.new.state.sent ≡ from.old.state.sent ++ packet.now ∷ [] }
    ensures got { IsTrue result → to.new.state.got ≡ to.old.state.got ++ packet.now ∷ [] }
    ensures room { IsTrue result → to.new.state.machine.start ≡ to.new.state.machine.read }
    ensures only { CanPass from.old to.old packet.now → (result ≡ false) → FailsToPass S.told S.tale T.told T.tale from.old from.new to.old to.new packet.now }
{
    if !is_free(from) || !is_free(to) || !is_packet(packet) {
        return false;
    }
    if packet.len() > 8192 || !from.fits(packet.len() as u32) {
        return false;
    }
    if from.send(packet).is_err() || to.take().is_err() {
        return false;
    }
    to.commit();
    to.taken() == packet
}
