//! Page words: those that go along with a packet, and those that came with one.
ghost use Rattle.std.specs.Prelude.{◌≡◌, ◌≢◌, ◌≤◌, [], false, length, take, is_some};
ghost use Rattle.ring_machine.specs.declared.machine.Stage.TheVariants.{Idle};
ghost use Rattle.ring_machine.specs.States.{IsPacket, MayLend};
ghost use Rattle.page_kept.specs.Kept.{pages_sent};
ghost use Rattle.page_kept.specs.Layouts.{layout};
ghost use Rattle.ring_core.specs.Laying.{laid};
ghost use Rattle.ring_core.specs.Loading.{Loads};
ghost use Rattle.ring_core.specs.Pages.{along, last_words};
ghost use Rattle.ring_end_history.specs.Calls.{Came};
ghost use Rattle.ring_core.specs.Seen.{KeptByPages};
ghost use Rattle.worker_port.specs.Line.{CanLay, page_words};
ghost use Rattle.worker_port.specs.Tries.{LaidOnce};

use ring_core::{End, Seatlike};

// Stores page words into the part of a page that goes along with a packet, if there are words to store: the send of that packet, which comes next, lends or
// brings back these words.
pub(crate) fn lay_all<S: Seatlike>(end: &mut End<S>, packet: &[u64], words: &[u64])
    requires idle { end.old.state.machine.stage ≡ Idle }
    requires unmarked { end.old.state.machine.marked ≡ false }
    requires packet { IsPacket packet.now }
    requires lays { CanLay end.old packet.now words.now }
    ensures pages { end.new.state.pages ≡ laid end.old.state.pages packet.now words.now }
    ensures laid { LaidOnce S.told S.tale packet.now words.now end.old end.new }
    ensures kept { KeptByPages end.old end.new × (end.new.spare_got ≡ end.old.spare_got) }
    ensures same { S.same end.old.seat end.new.seat }
    ensures lends { MayLend end.new.state packet.now }
    ensures along { along end.new.state.pages packet.now ≡ along end.old.state.pages packet.now }
    ensures words { end.new.state.pages.count ≢ 0 → take (length words.now) (last_words (pages_sent (layout end.new.state.pages.count) end.new.state.pages packet.now).sent) ≡ words.now }
    ensures tells { is_some (S.told end.new.seat) ≡ is_some (S.told end.old.seat) }
    ensures came { Came S.tale end.old end.new }
{
    if words.is_empty() {
        return;
    }
    end.lay(packet, words);
}

// Loads the page words that came with the packet that was taken last: all that are due, and none in a channel without data pages.
pub(crate) fn load_all<S: Seatlike>(end: &mut End<S>)
    requires idle { end.old.state.machine.stage ≡ Idle }
    requires room { page_words end.old.state.pages.count 1 ≤ end.old.spare_got.words }
    ensures loads { end.old.state.pages.count ≢ 0 → Loads S S.told S.tale S.same end.old end.new }
    ensures none { end.old.state.pages.count ≡ 0 → end.new ≡ end.old }
    ensures kept { KeptByPages end.old end.new }
    ensures same { S.same end.old.seat end.new.seat }
    ensures came { Came S.tale end.old end.new }
{
    if end.pages() != 0 {
        end.load_in();
    }
}
