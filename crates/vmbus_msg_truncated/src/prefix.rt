//! The first bytes of a message, read.
ghost use Rattle.std.specs.Prelude.{◌≡◌, ◌<◌, length, take, IfOk, IfErr, Ok, Err, Some, true, false};
ghost use Rattle.vmbus_msg.specs.declared.fault.MsgFault.TheVariants.{Short};
ghost use Rattle.vmbus_msg.specs.declared.msg.Msg.{Msg};
ghost use Rattle.vmbus_msg.specs.Faults.{fault_of};
ghost use Rattle.vmbus_msg.specs.Grammar.{IsMessage, bytes_of_message};
ghost use Rattle.vmbus_msg_truncated.specs.Fronts.{HasFirstFrames, ends_between_frames, frames_before, needed};

use vmbus_msg::{Msg, MsgFault, decode, encode};

/// What `decode` answers for the first `n` bytes of a message. There are fewer than the message has, and it takes no memory.
///
/// Errors: `Short`, with the bytes that are needed. 16 + 8 g bytes of a page list's body of more than g frames, and 1 at least, are no error: they are the body of its first g frames.
pub fn read_prefix(m: &Msg, n: usize) -> Result<Msg, MsgFault>
    requires front { n < length (bytes_of_message m.now) }

    // What is read has these bytes.
    ensures found { IfOk result (λ r. IsMessage r (take n (bytes_of_message m.now))) }

    // Which fault they have.
    ensures fault { IfErr result (λ e. fault_of (take n (bytes_of_message m.now)) ≡ Some e) }

    // They are too short ..
    ensures short { ends_between_frames m.now n ≡ false → result ≡ Err (Short n (needed m.now n)) }

    // .. but a body's that end between two frames.
    ensures fewer { ends_between_frames m.now n ≡ true → (r : Msg) × (result ≡ Ok r) × HasFirstFrames (frames_before n) m.now r }
{
    let mut out = [0; 240];
    encode(m, &mut out);
    decode(&out[..n])
}
