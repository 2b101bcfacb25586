//! The bytes that one request moves.
ghost use Rattle.std.specs.Prelude.{◌≡◌, ◌≤◌, length, take};

use inline_bytes::Held;

/// At most 4,096 bytes, held in place: what one request writes or one reply gives.
pub type Chunk = Held<4096>;

/// The first of these bytes, at most so many.
pub(crate) fn first(bytes: &[u8], most: u64) -> Chunk
    requires { length bytes.now ≤ 4096 }
    ensures value { result ≡ take most bytes.now }
    ensures most { length result ≤ length bytes.now }
{
    if most < bytes.len() as u64 {
        Chunk::of(&bytes[..most as usize])
    } else {
        Chunk::of(bytes)
    }
}
