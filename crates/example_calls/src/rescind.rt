//! A control message is read and acted on: a guest gives a channel back that its host took away.
ghost use Rattle.std.specs.Prelude.{◌≡◌, ℕ, IfSome, IfNone, take};
ghost use Rattle.vmbus_msg.specs.Grammar.{IsMessage};
ghost use Rattle.vmbus_msg.specs.declared.msg.Msg.TheVariants.{RescindChannelOffer, RelidReleased};

use vmbus_msg::{Msg, decode, encode};

/// Where these bytes take a channel back, writes the message that releases its relid, and answers how many bytes that has.
pub fn release(bytes: &[u8], out: &mut [u8; 240]) -> Option<usize>
    ensures released { IfSome result (λ n. (padding : ℕ) × (relid : ℕ) × (IsMessage (RescindChannelOffer padding relid) bytes.now × IsMessage (RelidReleased 0 relid) (take n out.new))) }
    ensures other { IfNone result ((padding relid : ℕ) → IsMessage (RescindChannelOffer padding relid) bytes.now → ⊥) }
    ensures kept { IfNone result (out.new ≡ out.old) }
{
    match decode(bytes) {
        Ok(Msg::RescindChannelOffer { padding: _, relid }) => {
            Some(encode(&Msg::RelidReleased { padding: 0, relid }, out))
        }
        _ => None,
    }
}
