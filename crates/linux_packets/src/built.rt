//! Packets of a ring.

ghost use Rattle.std.specs.Prelude.{◌≤◌};

use crate::came::Came;
use pkt_desc::{build_comp, build_inband};
use vm_page::bytes_of;

// How many bytes a packet has at most.
const MOST_BYTES: usize = 3072;

/// How many words a packet has at most.
pub(crate) const MOST_WORDS: usize = 384;

/// What a packet is made of: its id, its flags, and how many bytes of payload it has.
#[derive(Clone, Copy)]
struct Made {
    id: u64,
    flags: u16,
    payload: usize,
}

// What the line says of its packet, as `id 2 flags 1 payload 1 bytes 7i+1`: byte i of the payload is 7i + 1.
fn read(meaning: &str) -> Option<Made> {
    let rest = meaning.strip_prefix("id ")?;
    let (id, rest) = rest.split_once(" flags ")?;
    let (flags, rest) = rest.split_once(" payload ")?;
    let payload = rest.strip_suffix(" bytes 7i+1")?;
    Some(Made {
        id: id.parse().ok()?,
        flags: flags.parse().ok()?,
        payload: payload.parse().ok()?,
    })
}

/// The bytes 7i + 1 of a payload.
pub(crate) fn payload() -> [u8; 1024] {
    let mut payload = [0; 1024];
    for (i, byte) in payload.iter_mut().enumerate() {
        *byte = ((7 * i + 1) % 256) as u8;
    }
    payload
}

/// What a packet with these digits came to of which so many words were built.
pub(crate) fn compare(words: &[u64; MOST_WORDS], count: usize, digits: &str) -> Came
    requires { count ≤ 384 }
{
    let mut bytes = [0; MOST_BYTES];
    bytes_of(words, &mut bytes);
    let mut want = [0; MOST_BYTES];
    let len = 8 * count;
    if digits.len() == 2 * len
        && hex::decode_to_slice(digits, &mut want[..len]).is_ok()
        && want[..len] == bytes[..len]
    {
        Came::Alike
    } else {
        Came::Differs
    }
}

/// What the packet with these digits came to: it is built of what the line says.
pub(crate) fn built(kind: u16, digits: &str, meaning: &str) -> Came {
    let Some(made) = read(meaning) else {
        return Came::NoPacket;
    };
    if made.payload > 1024 {
        return Came::NoPacket;
    }
    let bytes = payload();
    let mut words = [0; MOST_WORDS];
    let count = match kind {
        6 => build_inband(&mut words, made.id, made.flags, &bytes[..made.payload]),
        _ => build_comp(&mut words, made.id, &bytes[..made.payload]),
    };
    compare(&words, count, digits)
}
