//! The control path over the bytes of its messages: what a hypervisor's call hands over, and what it takes.
ghost use Rattle.std.specs.Prelude.{◌≡◌, ◌+◌, ◌≤◌, [], ◌∷◌, ◌++◌, List, length, take, OnOk, OnErr, IfErr, IfSome, MatchOption};
ghost use Rattle.vmbus_msg.specs.Grammar.{IsMessage};
ghost use Rattle.vmbus_msg.specs.declared.msg.Msg.{Msg as OneMsg};
ghost use Rattle.control_model.specs.Guest.{GuestTakes, guest_hears};
ghost use Rattle.control_model.specs.Host.{HostTakes, host_hears};
ghost use Rattle.example_control.specs.Bytes.{with_mail, Refuses};

use control_model::ControlFault;
use guest_end::GuestControl;
use host_end::HostControl;
use mail_box::MailBox;
use vmbus_msg::{MsgFault, decode, encode};

/// Why bytes from the other side are refused.
#[derive(Clone, Copy, Debug)]
pub enum Refused {
    /// They are no message.
    Bytes(MsgFault),
    /// They are a message that the control refuses.
    Message(ControlFault),
}

/// A guest takes the bytes of a message of its host; what it sends then waits in `post`, which has room for 32 messages. A refusal changes nothing.
pub fn guest_takes(
    control: &mut GuestControl,
    bytes: &[u8],
    post: &mut MailBox,
) -> Result<(), Refused>
    requires { length post.old.queue + 32 ≤ post.old.size }
    ensures taken { OnOk result ((m : OneMsg) × (sent : List OneMsg) × IsMessage m bytes.now × GuestTakes control.old m sent control.new × (post.new ≡ with_mail post.old sent)) }
    ensures refused { IfErr result (Refuses (guest_hears control.old) bytes.now) }
    ensures kept { OnErr result ((control.new ≡ control.old) × (post.new ≡ post.old)) }
{
    match decode(bytes) {
        Ok(message) => match control.feed(&message, post) {
            Ok(()) => Ok(()),
            Err(fault) => Err(Refused::Message(fault)),
        },
        Err(fault) => Err(Refused::Bytes(fault)),
    }
}

/// A host takes the bytes of a message of its guest, as the call hands them over with which the guest posts it. What it sends then waits in `post`, which has room for
/// 32 messages. A refusal changes nothing.
pub fn host_takes(
    control: &mut HostControl,
    bytes: &[u8],
    post: &mut MailBox,
) -> Result<(), Refused>
    requires { length post.old.queue + 32 ≤ post.old.size }
    ensures taken { OnOk result ((m : OneMsg) × (sent : List OneMsg) × IsMessage m bytes.now × HostTakes control.old m sent control.new × (post.new ≡ with_mail post.old sent)) }
    ensures refused { IfErr result (Refuses (host_hears control.old) bytes.now) }
    ensures kept { OnErr result ((control.new ≡ control.old) × (post.new ≡ post.old)) }
{
    match decode(bytes) {
        Ok(message) => match control.feed(&message, post) {
            Ok(()) => Ok(()),
            Err(fault) => Err(Refused::Message(fault)),
        },
        Err(fault) => Err(Refused::Bytes(fault)),
    }
}

/// Writes the bytes of the next message that waits, and answers how many they are: none exactly where none waits.
pub fn next_bytes(post: &mut MailBox, out: &mut [u8; 240]) -> Option<usize>
    ensures message { MatchOption result ((post.old.queue ≡ []) × (post.new ≡ post.old) × (out.new ≡ out.old)) (λ n. (m : OneMsg) × (post.old.queue ≡ m ∷ post.new.queue) × IsMessage m (take n out.new)) }
    ensures most { IfSome result (λ n. n ≤ 240) }
    ensures size { post.new.size ≡ post.old.size }
{
    let message = post.take()?;
    Some(encode(&message, out))
}
