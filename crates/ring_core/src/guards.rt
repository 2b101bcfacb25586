//! Whether an end may make a call, by what it can read of itself: so a program that keeps no count of its own can make each call safely.
ghost use Rattle.std.specs.Prelude.{◌≡◌, ◌<◌, ◌≤◌, ◌+◌, IsTrue, false, length};
ghost use Rattle.page_kept.specs.declared.due.Due.TheVariants.{Clear};
ghost use Rattle.ring_core.specs.Pages.{along};
ghost use Rattle.ring_machine.specs.States.{IsPacket, MayLend};

use crate::end::End;
use crate::seat::Seatlike;

/// Whether these words are a packet: at least two, the first of which gives their number, and an offset of the payload between 2 and it.
/// Source: Linux `include/linux/hyperv.h`, struct vmpacket_descriptor.
pub fn is_packet(p: &[u64]) -> bool
    ensures packet { IsTrue result → IsPacket p.now }
    ensures whole { IsPacket p.now → IsTrue result }
{
    p.len() > 1
        && p[0] / 4294967296 % 65536 == p.len() as u64
        && p[0] / 65536 % 65536 >= 2
        && p[0] / 65536 % 65536 <= p.len() as u64
}

// Whether these words are a packet that fits into the end's ring.
fn is_packet_of<S: Seatlike>(e: &End<S>, p: &[u64]) -> bool
    ensures packet { IsTrue result → IsPacket p.now × (length p.now + 1 < e.now.state.machine.cells) }
    ensures whole { IsPacket p.now → length p.now + 1 < e.now.state.machine.cells → IsTrue result }
{
    let len = p.len() as u64;
    is_packet(p) && len + 1 < e.cells() as u64
}

/// Whether an end is neither asleep nor marked. Then it may send and take, and where it isn't stopped, begin each call but a poll.
pub fn may_begin<S: Seatlike>(e: &End<S>) -> bool
    ensures awake { IsTrue result → (e.now.state.machine.asleep ≡ false) × (e.now.state.machine.marked ≡ false) }
    ensures whole { e.now.state.machine.asleep ≡ false → e.now.state.machine.marked ≡ false → IsTrue result }
{
    !e.is_asleep() && !e.is_marked()
}

/// Whether an end of a channel without data pages may send these words: they are a packet that fits into its ring, and its list has room for it. In a channel
/// with data pages a send asks more, as `may_lend` does, and the answer is no.
pub fn may_send<S: Seatlike>(e: &End<S>, p: &[u64]) -> bool
    ensures awake { IsTrue result → (e.now.state.machine.asleep ≡ false) × (e.now.state.machine.marked ≡ false) }
    ensures bare { IsTrue result → e.now.state.pages.count ≡ 0 }
    ensures packet { IsTrue result → IsPacket p.now × (length p.now + 1 < e.now.state.machine.cells) }
    ensures room { IsTrue result → (0 < e.now.spare_sent.packets) × (length p.now ≤ e.now.spare_sent.words) }
    ensures whole { e.now.state.pages.count ≡ 0 → e.now.state.machine.asleep ≡ false → e.now.state.machine.marked ≡ false → IsPacket p.now → length p.now + 1 < e.now.state.machine.cells → 0 < e.now.spare_sent.packets → length p.now ≤ e.now.spare_sent.words → IsTrue result }
{
    let room = e.spare_sent();
    let len = p.len() as u64;
    may_begin(e) && e.pages() == 0 && is_packet_of(e, p) && 0 < room.packets && len <= room.words
}

/// Whether an end of any channel may send these words: they are a packet that fits into its ring, its data pages allow it, and its list has room for it and for a
/// whole page. The answer takes the same time whatever was sent and got.
pub fn may_lend<S: Seatlike>(e: &mut End<S>, p: &[u64]) -> bool
    ensures awake { IsTrue result → (e.old.state.machine.asleep ≡ false) × (e.old.state.machine.marked ≡ false) }
    ensures packet { IsTrue result → IsPacket p.now × (length p.now + 1 < e.old.state.machine.cells) }
    ensures lends { IsTrue result → MayLend e.old.state p.now }
    ensures room { IsTrue result → (0 < e.old.spare_sent.packets) × (length p.now + 512 ≤ e.old.spare_sent.words) }
    ensures along { IsTrue result → length p.now + along e.old.state.pages p.now ≤ e.old.spare_sent.words }
    ensures whole { e.old.state.machine.asleep ≡ false → e.old.state.machine.marked ≡ false → IsPacket p.now → length p.now + 1 < e.old.state.machine.cells → MayLend e.old.state p.now → 0 < e.old.spare_sent.packets → length p.now + 512 ≤ e.old.spare_sent.words → IsTrue result }
    ensures same { e.new ≡ e.old }
{
    let room = e.spare_sent();
    let len = p.len() as u64;
    may_begin(e)
        && is_packet_of(e, p)
        && 0 < room.packets
        && len + 512 <= room.words
        && e.can_lend(p)
}

/// Whether an end may take: its list has room for the longest packet that its ring can hold, and no page words are still to be loaded.
pub fn may_take<S: Seatlike>(e: &End<S>) -> bool
    ensures awake { IsTrue result → (e.now.state.machine.asleep ≡ false) × (e.now.state.machine.marked ≡ false) }
    ensures room { IsTrue result → (0 < e.now.spare_got.packets) × (e.now.state.machine.cells ≤ e.now.spare_got.words) }
    ensures clear { IsTrue result → e.now.state.pages.due ≡ Clear }
    ensures whole { e.now.state.pages.due ≡ Clear → e.now.state.machine.asleep ≡ false → e.now.state.machine.marked ≡ false → 0 < e.now.spare_got.packets → e.now.state.machine.cells ≤ e.now.spare_got.words → IsTrue result }
{
    let room = e.spare_got();
    may_begin(e) && !e.is_due() && 0 < room.packets && e.cells() as u64 <= room.words
}
