//! What an assembler of page lists makes of a message.
ghost use Rattle.std.specs.Prelude.{◌≡◌, ◌≢◌, ◌≤◌, ◌+◌, ◌++◌, ℕ, true, List, OnOk, vec_len};
ghost use Rattle.gpadl.specs.Assembly.{IsPiece};
ghost use Rattle.gpadl.specs.declared.fault.GpadlFault.TheVariants.{Memory};
ghost use Rattle.hostile_decoders.specs.Lists.{is_piece, gpadl_fault_said, progress_said, SaysMessage, SaysPages};

use crate::kind::type_of;
use crate::text::{push_named, push_two};
use gpadl::{Assembler, GpadlFault, Progress};
use std::alloc::AllocError;
use vmbus_msg::{Msg, decode};
use vmbus_msg_text::push_fault;

fn is_piece(m: &Msg) -> bool
    ensures value { result ≡ is_piece m.now }
    ensures piece { result ≡ true → IsPiece m.now }
{
    matches!(m, Msg::GpadlHeader(_) | Msg::GpadlBody(_))
}

fn push_gpadl_fault(text: &mut Vec<u8>, fault: GpadlFault) -> Result<(), AllocError>
    ensures text { OnOk result (text.new.items ≡ text.old.items ++ gpadl_fault_said fault) }
    ensures memory { OnOk result (fault ≢ Memory) }
    ensures short { OnOk result (vec_len text.new ≤ vec_len text.old + 60) }
{
    match fault {
        GpadlFault::Count { want, have } => push_two(
            text,
            b"gpadl count ",
            u64::from(want),
            b" ",
            u64::from(have),
        ),
        GpadlFault::Handle { id } => push_named(text, b"gpadl handle ", u64::from(id)),
        GpadlFault::Repeat { id } => push_named(text, b"gpadl repeat ", u64::from(id)),
        GpadlFault::Range { value } => push_named(text, b"gpadl range ", u64::from(value)),
        GpadlFault::Memory => Err(AllocError),
    }
}

fn push_progress(text: &mut Vec<u8>, progress: &Progress) -> Result<(), AllocError>
    ensures text { OnOk result (text.new.items ≡ text.old.items ++ progress_said progress.now) }
    ensures short { OnOk result (vec_len text.new ≤ vec_len text.old + 60) }
{
    match progress {
        Progress::More { have, want } => {
            push_two(text, b"more ", u64::from(*have), b" ", u64::from(*want))
        }
        Progress::Done(list) => push_named(text, b"pages ", list.pages.len() as u64),
    }
}

// What the assembler makes of a message.
fn push_message(lists: &mut Assembler, m: &Msg, text: &mut Vec<u8>) -> Result<(), AllocError>
    ensures says { OnOk result ((said : List ℕ) × SaysMessage m.now lists.old lists.new said × (text.new.items ≡ text.old.items ++ said)) }
    ensures short { OnOk result (vec_len text.new ≤ vec_len text.old + 60) }
{
    if !is_piece(m) {
        return push_named(text, b"other ", u64::from(type_of(m)));
    }
    match lists.feed(m) {
        Ok(progress) => push_progress(text, &progress),
        Err(fault) => push_gpadl_fault(text, fault),
    }
}

/// The first fault of bytes that are no message; the type of a message that is no part of a page list; or what the assembler makes of it.
pub(crate) fn push_pages(
    lists: &mut Assembler,
    bytes: &[u8],
    text: &mut Vec<u8>,
) -> Result<(), AllocError>
    ensures says { OnOk result ((said : List ℕ) × SaysPages bytes.now lists.old lists.new said × (text.new.items ≡ text.old.items ++ said)) }
    ensures short { OnOk result (vec_len text.new ≤ vec_len text.old + 3300) }
{
    match decode(bytes) {
        Ok(m) => push_message(lists, &m, text),
        Err(fault) => push_fault(text, &fault),
    }
}
