//! What encoding and decoding are to each other.
ghost use Rattle.std.specs.Prelude.{◌≡◌, Ok};

use crate::{Rndis, RndisFault, decode, encode};

/// A message that is encoded and decoded is the message again.
pub fn encode_and_decode(m: &Rndis) -> Result<Rndis, RndisFault>
    ensures { result ≡ Ok m.now }
{
    let mut out = [0; 1600];
    let len = encode(m, &mut out);
    decode(&out[..len])
}
