//! What encoding and decoding are to each other.
ghost use Rattle.std.specs.Prelude.{◌≡◌, Ok};

use crate::{Nvsp, NvspFault, decode_nvsp, encode_nvsp};

/// A message that is encoded and decoded is the message again.
pub fn encode_and_decode_nvsp(m: &Nvsp) -> Result<Nvsp, NvspFault>
    ensures { result ≡ Ok m.now }
{
    let mut out = [0; 40];
    encode_nvsp(m, &mut out);
    decode_nvsp(&out)
}
