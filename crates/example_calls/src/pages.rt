//! A page list is cut into control messages by the one side, and assembled from them by the other.
ghost use Rattle.std.specs.Prelude.{◌≡◌, ◌≤◌, IfOk, IfSome, IfNone, None, Some, length};
ghost use Rattle.vmbus_msg.specs.declared.msg.Msg.{Msg as OneMsg};
ghost use Rattle.vmbus_msg.specs.Grammar.{IsMessage};
ghost use Rattle.gpadl.specs.Cut.{AreMessagesOf};
ghost use Rattle.gpadl.specs.Assembly.{IsPiece, Partial, built, fault_of};
ghost use Rattle.example_calls.specs.Pieces.{GoesOn};

use gpadl::{Assembler, PageList, Progress, to_messages};
use std::alloc::{AllocError, Global};
use vmbus_msg::{Msg, decode};

/// The messages that share a ring's pages with the host, under handle 1 of channel 1.
pub fn share(alloc: Global, pages: &[u64]) -> Result<Vec<Msg>, AllocError>
    requires { (1 ≤ length pages.now) × (length pages.now ≤ 8190) }
    ensures { IfOk result (λ messages. AreMessagesOf 1 1 pages.now messages.items) }
{
    to_messages(alloc, 1, 1, pages)
}

/// Takes bytes from the guest, and gives the list that they make whole. Bytes that are no piece of a list, or that the assembler refuses, change
/// nothing. A piece in order makes no list whole only where frames are missing, or where a header wants memory.
pub fn take_piece(lists: &mut Assembler, bytes: &[u8]) -> Option<PageList>
    ensures whole { IfSome result (λ list. (m : OneMsg) × (p : Partial) × (IsMessage m bytes.now × (built lists.old.building m ≡ Some p) × (length p.pages ≡ p.want) × (list.pages.items ≡ p.pages) × (list.handle ≡ p.handle) × (list.relid ≡ p.relid))) }
    ensures part { IfNone result ((m : OneMsg) → IsMessage m bytes.now → IsPiece m → fault_of lists.old m ≡ None → GoesOn m lists.old lists.new) }
    ensures other { ((m : OneMsg) → IsMessage m bytes.now → IsPiece m → fault_of lists.old m ≡ None → ⊥) → lists.new ≡ lists.old }
{
    let message = match decode(bytes) {
        Ok(Msg::GpadlHeader(header)) => Msg::GpadlHeader(header),
        Ok(Msg::GpadlBody(body)) => Msg::GpadlBody(body),
        _ => return None,
    };
    match lists.feed(&message) {
        Ok(Progress::Done(list)) => Some(list),
        _ => None,
    }
}
