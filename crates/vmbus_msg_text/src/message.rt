//! The text of a message, and of bytes that are none.
ghost use Rattle.std.specs.Prelude.{◌≡◌, ◌<◌, ◌≤◌, ◌++◌, ◌+◌, List, length, Ok, OnOk, vec_len};
ghost use Rattle.wire_table.specs.Rows.{rows_at, total};
ghost use Rattle.vmbus_msg.specs.Grammar.{frames_of, kinds_of};
ghost use Rattle.vmbus_msg.specs.Reading.{Parses};
ghost use Rattle.vmbus_msg_text.specs.Layouts.{frames_room};
ghost use Rattle.vmbus_msg_text.specs.Names.{name_of, shows_of};
ghost use Rattle.vmbus_msg_text.specs.Pieces.{joined};
ghost use Rattle.vmbus_msg_text.specs.Text.{field_pieces, fault_text, bytes_text, checked_name};

use crate::field::{push_fields, push_name};
use crate::layout::{layout_of, layouts};
use crate::push::push_numbers;
use script_text::push_decimal;
use std::alloc::AllocError;
use vmbus_msg::{FieldName, Msg, MsgFault, decode};
use wire_table::get_at;

/// The text of bytes: of the message that they are, or of the first fault.
pub fn push_bytes(text: &mut Vec<u8>, bytes: &[u8]) -> Result<(), AllocError>
    ensures text { OnOk result (text.new.items ≡ text.old.items ++ bytes_text bytes.now) }
    ensures short { OnOk result (vec_len text.new ≤ vec_len text.old + 3300) }
{
    match decode(bytes) {
        Ok(message) => push_msg(text, bytes, &message),
        Err(fault) => push_fault(text, &fault),
    }
}

// The name of the message of a type, and for each printed field its name and its value.
fn push_known(text: &mut Vec<u8>, kind: u64, bytes: &[u8]) -> Result<(), AllocError>
    requires { 4 + total (kinds_of kind) ≤ length bytes.now }
    ensures text { OnOk result (text.new.items ≡ text.old.items ++ (name_of kind ++ joined (field_pieces (shows_of kind) (rows_at (kinds_of kind) 4 bytes.now)))) }
    ensures short { OnOk result (vec_len text.new + frames_room kind ≤ vec_len text.old + 3300) }
{
    let layouts = layouts();
    match layout_of(layouts, kind) {
        Some(layout) => {
            text.extend_from_slice(layout.name.as_bytes())?;
            push_fields(text, layout.fields, bytes)
        }
        None => Ok(()),
    }
}

// The frames of a page list's header or body.
fn frames_of(message: &Msg) -> &[u64]
    ensures value { result.now ≡ frames_of message.now }
    ensures few { length result.now ≤ 28 }
{
    match message {
        Msg::GpadlHeader(header) => header.frames.as_slice(),
        Msg::GpadlBody(body) => body.frames.as_slice(),
        _ => &[],
    }
}

// What was read of bytes: the message's name, and for each printed field its name and its value.
fn push_msg(text: &mut Vec<u8>, bytes: &[u8], message: &Msg) -> Result<(), AllocError>
    requires { Parses bytes.now (Ok message.now) }
    ensures text { OnOk result (text.new.items ≡ text.old.items ++ bytes_text bytes.now) }
    ensures short { OnOk result (vec_len text.new ≤ vec_len text.old + 3300) }
{
    let kind = get_at(bytes, 0, 4);
    push_known(text, kind, bytes)?;
    if kind == 8 || kind == 9 {
        push_name(text, "frames")?;
        push_numbers(text, frames_of(message))?;
    }
    Ok(())
}

// The name of a field that is checked.
fn checked_name(name: FieldName) -> &'static str
    ensures value { result.now ≡ checked_name name }
    ensures short { length result.now ≤ 12 }
{
    match name {
        FieldName::RangeBuflen => "range_buflen",
        FieldName::Rangecount => "rangecount",
    }
}

/// A fault: its kind, and its numbers in the order of its fields.
pub fn push_fault(text: &mut Vec<u8>, fault: &MsgFault) -> Result<(), AllocError>
    ensures text { OnOk result (text.new.items ≡ text.old.items ++ fault_text fault.now) }
    ensures short { OnOk result (vec_len text.new ≤ vec_len text.old + 3300) }
{
    match fault {
        MsgFault::Short { have, need } => {
            text.extend_from_slice(b"short ")?;
            push_decimal(text, *have as u64)?;
            text.extend_from_slice(b" need ")?;
            push_decimal(text, *need as u64)?;
        }
        MsgFault::Unknown { kind } => {
            text.extend_from_slice(b"unknown ")?;
            push_decimal(text, *kind as u64)?;
        }
        MsgFault::Long { have } => {
            text.extend_from_slice(b"long ")?;
            push_decimal(text, *have as u64)?;
        }
        MsgFault::Field { name, value } => {
            text.extend_from_slice(b"field ")?;
            text.extend_from_slice(checked_name(*name).as_bytes())?;
            text.extend_from_slice(b" ")?;
            push_decimal(text, *value)?;
        }
    }
    Ok(())
}
