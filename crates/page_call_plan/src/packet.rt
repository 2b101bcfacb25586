//! What a packet says of pages.
ghost use Rattle.std.specs.Prelude.{◌≡◌, ◌==◌, ◌<◌, ◌≤◌, true, length, None, Some, MatchOption, IfSome};
ghost use Rattle.pkt_desc.specs.Packets.{IsPacket, kind_of};
ghost use Rattle.page_kept.specs.Layouts.{layout};
ghost use Rattle.page_call_plan.specs.Slots.{is_packet, loan_of};

use pkt_desc::lent;

/// The type of a completion. Source: Linux `include/linux/hyperv.h`, `VM_PKT_COMP`.
const COMPLETION: u64 = 11;

/// The first words of a page.
#[derive(Clone, Copy)]
pub(crate) struct Part {
    /// The page.
    pub(crate) page: u32,
    /// How many of its words.
    pub(crate) words: u32,
}

// Whether the words are a packet: the first gives their number, and a payload inside them.
#[inline(always)]
pub(crate) fn is_packet(words: &[u64]) -> bool
    ensures says { result ≡ is_packet words.now }
    ensures packet { result ≡ true → IsPacket words.now }
{
    if words.len() < 2 {
        return false;
    }
    let len = words[0] / 0x1_0000_0000 % 65536;
    let offset = words[0] / 65536 % 65536;
    len == words.len() as u64 && 2 <= offset && offset <= len
}

// Whether a packet is a completion.
#[inline(always)]
pub(crate) fn is_completion(packet: &[u64]) -> bool
    requires packet { IsPacket packet.now }
    ensures { result ≡ (kind_of packet.now == 11) }
{
    packet[0] % 65536 == COMPLETION
}

// The page that a packet names, where the channel has so many pages, and how many of its words.
#[inline(always)]
pub(crate) fn named(count: u32, packet: &[u64]) -> Option<Part>
    requires packet { IsPacket packet.now }
    ensures named { MatchOption result ((layout count).lends packet.now ≡ None) (λ a. (layout count).lends packet.now ≡ Some (loan_of a)) }
    ensures part { IfSome result (λ a. (a.page < count) × (0 < a.words) × (a.words ≤ 512)) }
{
    let named = lent(packet)?;
    if named.page >= count {
        return None;
    }
    Some(Part {
        page: named.page,
        words: (named.bytes + 7) / 8,
    })
}
