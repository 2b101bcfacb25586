//! What the end of a socket asks of the end of the channel that it stands over.
ghost use Rattle.std.specs.Prelude.{◌≡◌, ◌+◌, ◌-◌, ◌<◌, ◌≤◌, ◌++◌, ◌∷◌, [], ℕ, List, false, length, slice_get, Some, None};
ghost use Rattle.ring_machine.specs.declared.machine.Stage.TheVariants.{Idle};
ghost use Rattle.ring_machine.specs.Endings.{refused};
ghost use Rattle.ring_machine.specs.States.{IsPacket};
ghost use Rattle.ring_machine.specs.Steps.{is_busy_at};
ghost use Rattle.hv_sock.specs.Ends.{Commits, Reads, Sends, TakesAway};

use crate::got::Got;
use crate::packet::{MOST_DATA, read_packet};
use crate::sock_fault::SockFault;
use ring_core::{End, Seatlike, SendRefusal, Signalled, TakeRefusal};

/// Sends a packet, in a channel without data pages.
pub(crate) fn send_packet<S: Seatlike>(
    end: &mut End<S>,
    p: &[u64],
) -> Result<Signalled, SendRefusal>
    requires awake { (end.old.state.machine.asleep ≡ false) × (end.old.state.machine.marked ≡ false) }
    requires packet { IsPacket p.now × (length p.now + 1 < end.old.state.machine.cells) }
    requires bare { end.old.state.pages.count ≡ 0 }
    requires room { (0 < end.old.spare_sent.packets) × (length p.now ≤ end.old.spare_sent.words) }
    ensures sends { Sends S S.told S.tale S.same p.now end.old end.new result }
    ensures bare { end.new.state.pages.count ≡ 0 }
{
    end.send(p)
}

/// Gives back the cells of all packets that were taken.
fn give_back<S: Seatlike>(end: &mut End<S>)
    requires idle { end.old.state.machine.stage ≡ Idle }
    requires awake { (end.old.state.machine.asleep ≡ false) × (end.old.state.machine.marked ≡ false) }
    requires bare { end.old.state.pages.count ≡ 0 }
    ensures commits { Commits S S.told S.tale S.same end.old end.new }
    ensures bare { end.new.state.pages.count ≡ 0 }
{
    end.commit();
}

/// Takes the first packet that waits into the list of those that were got, and gives its cells back.
fn take_packet<S: Seatlike>(end: &mut End<S>) -> Result<(), TakeRefusal>
    requires rests { is_busy_at end.old.state.machine.stage ≡ false }
    requires awake { (end.old.state.machine.asleep ≡ false) × (end.old.state.machine.marked ≡ false) }
    requires bare { end.old.state.pages.count ≡ 0 }
    requires room { (0 < end.old.spare_got.packets) × (end.old.state.machine.cells ≤ end.old.spare_got.words) }
    ensures takes { TakesAway S S.told S.tale S.same end.old end.new (refused result) }
    ensures took { refused result ≡ None → (p : List ℕ) × IsPacket p × (end.new.state.got ≡ end.old.state.got ++ p ∷ []) }
    ensures bare { end.new.state.pages.count ≡ 0 }
{
    match end.take_in() {
        Err(refusal) => Err(refusal),
        Ok(()) => {
            give_back(end);
            Ok(())
        }
    }
}

/// The packet that was got last.
fn last_got<S: Seatlike>(end: &End<S>) -> &[u64]
    requires some { 0 < length end.now.state.got }
    ensures { slice_get end.now.state.got (length end.now.state.got - 1) ≡ Some result.now }
{
    let got = end.got();
    match got.get(got.len() - 1) {
        Some(packet) => packet,
        None => unreachable!(),
    }
}

/// Takes the next packet of a stream that can go on, gives its cells back, and reads it.
pub(crate) fn read_next<S: Seatlike>(
    end: &mut End<S>,
    out: &mut [u8; MOST_DATA],
) -> Result<Got, SockFault>
    requires rests { is_busy_at end.old.state.machine.stage ≡ false }
    requires awake { (end.old.state.machine.asleep ≡ false) × (end.old.state.machine.marked ≡ false) }
    requires bare { end.old.state.pages.count ≡ 0 }
    requires room { (0 < end.old.spare_got.packets) × (end.old.state.machine.cells ≤ end.old.spare_got.words) }
    ensures reads { Reads S S.told S.tale S.same end.old end.new result out.old out.new }
    ensures bare { end.new.state.pages.count ≡ 0 }
{
    match take_packet(end) {
        Err(refusal) => Err(SockFault::Take(refusal)),
        Ok(()) => read_packet(last_got(end), out),
    }
}
