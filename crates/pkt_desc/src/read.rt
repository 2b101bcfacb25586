//! Reads a packet's descriptor.

ghost use Rattle.std.specs.Prelude.{◌≡◌, ◌≤◌, ◌/◌, ◌%◌, ◌^◌, length, slice_index, IfOk, MatchResult, None, Some};
ghost use Rattle.pkt_desc.specs.Packets.{IsPacket, desc_of, desc_in};
ghost use Rattle.pkt_desc.specs.Ranges.{RangesFit};
ghost use Rattle.pkt_desc.specs.Faults.{fault_of};

use crate::fields::low_16;
use crate::ranges::{ranges_fit, told_count};
use crate::{Desc, PacketFault};

// The descriptor in a packet's first two words.
fn desc(first: u64, tid: u64) -> Desc
    ensures { result ≡ desc_in first tid }
{
    Desc {
        kind: low_16(first),
        offset8: low_16(first >> 16),
        len8: low_16(first >> 32),
        flags: low_16(first >> 48),
        tid,
    }
}

/// Reads a packet's descriptor, where the words are a packet.
///
/// The length is tested first: it must be the number of words. Then the payload must begin at word 2 or later, and not past
/// the end (Linux 6.12, `drivers/hv/ring_buffer.c`, hv_pkt_iter_first, which mends what is refused here). Last, the ranges
/// of a packet of type 7 or 9 must end at or before the payload (`drivers/net/hyperv/netvsc.c`, netvsc_receive, which
/// tests those of type 7).
///
/// # Errors
///
/// `PacketFault::Length`, `PacketFault::Offset` and `PacketFault::Ranges` where these tests fail, in this order.
pub fn parse(words: &[u64]) -> Result<Desc, PacketFault>
    requires two { 2 ≤ length words.now }
    ensures fault { MatchResult result (λ _. fault_of words.now ≡ None) (λ e. fault_of words.now ≡ Some e) }
    ensures desc { IfOk result (λ d. IsPacket words.now × RangesFit words.now × (d ≡ desc_of words.now)) }
    ensures every { IsPacket words.now → RangesFit words.now → result ≡ Ok (desc_of words.now) }
{
    let desc = desc(words[0], words[1]);
    let have = words.len() as u64;
    if u64::from(desc.len8) != have {
        return Err(PacketFault::Length {
            len8: desc.len8,
            have,
        });
    }
    if desc.offset8 < 2 || desc.offset8 > desc.len8 {
        return Err(PacketFault::Offset {
            offset8: desc.offset8,
            len8: desc.len8,
        });
    }
    if !ranges_fit(words, desc.kind, desc.offset8) {
        return Err(PacketFault::Ranges {
            count: told_count(words, desc.offset8),
            have: u64::from(desc.offset8) - 2,
        });
    }
    Ok(desc)
}
