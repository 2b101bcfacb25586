//! A packet of a ring is read: its descriptor, and the bytes of its payload.
ghost use Rattle.std.specs.Prelude.{◌≡◌, ◌≤◌, length, take, IfSome, IfNone};
ghost use Rattle.vm_page.specs.Words.{bytes_in};
ghost use Rattle.pkt_desc.specs.Packets.{IsPacket, IsPlainKind, desc_of, kind_of, payload_of};

use pkt_desc::{Desc, parse};
use vm_page::bytes_of;

/// The descriptor of a packet, and how many bytes its payload has, which are put at the front of `bytes`. In-band data and completions are always read; of a packet
/// with ranges these have to end before the payload.
pub fn read_packet(words: &[u64], bytes: &mut [u8; 3056]) -> Option<(Desc, usize)>
    requires { (2 ≤ length words.now) × (length words.now ≤ 384) }
    ensures packet { IfSome result (λ r. IsPacket words.now × (r.0 ≡ desc_of words.now)) }
    ensures payload { IfSome result (λ r. (r.1 ≤ 3056) × (r.1 ≡ length (bytes_in (payload_of words.now))) × (take r.1 bytes.new ≡ bytes_in (payload_of words.now))) }
    ensures none { IfNone result (IsPacket words.now → IsPlainKind (kind_of words.now) → ⊥) }
    ensures kept { IfNone result (bytes.new ≡ bytes.old) }
{
    let Ok(desc) = parse(words) else {
        return None;
    };
    let (_, payload) = words.split_at(desc.offset8 as usize);
    let len = 8 * payload.len();
    bytes_of(payload, &mut bytes[..len]);
    Some((desc, len))
}
