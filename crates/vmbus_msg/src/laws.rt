//! What encoding and decoding are to each other.

ghost use Rattle.std.specs.Prelude.{◌≡◌, ◌≤◌, take, drop, IfOk, IfErr, Ok, Some};
ghost use Rattle.vmbus_msg.specs.Faults.{fault_of};

use crate::fault::MsgFault;
use crate::msg::Msg;
use crate::{decode, encode};

/// A message that is encoded and decoded is the message again.
pub fn encode_and_decode(m: &Msg) -> Result<Msg, MsgFault>
    ensures { result ≡ Ok m.now }
{
    let mut out = [0; 240];
    let len = encode(m, &mut out);
    decode(&out[..len])
}

/// Bytes that are decoded and encoded are the bytes again; answers how many there are. Bytes that
/// are no message have the fault that `decode` tells, and write nothing.
pub fn decode_and_encode(bytes: &[u8], out: &mut [u8; 240]) -> Result<usize, MsgFault>
    ensures again { IfOk result (λ n. take n out.new ≡ bytes.now) }
    ensures rest { IfOk result (λ n. drop n out.new ≡ drop n out.old) }
    ensures most { IfOk result (λ n. n ≤ 240) }
    ensures fault { IfErr result (λ e. fault_of bytes.now ≡ Some e) }
    ensures unchanged { IfErr result (λ e. out.new ≡ out.old) }
{
    match decode(bytes) {
        Ok(m) => Ok(encode(&m, out)),
        Err(fault) => Err(fault),
    }
}
