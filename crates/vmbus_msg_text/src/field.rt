//! A message's name and fields pushed onto a text.
ghost use Rattle.std.specs.Prelude.{◌≡◌, ◌<◌, ◌≤◌, ◌++◌, ◌+◌, ◌*◌, ◌∷◌, [], List, length, OnOk, vec_len};
ghost use Rattle.vmbus_msg_text.specs.Layouts.{number_width, Holds, field_text, fields_text, most_of, most_in};

use crate::layout::Shown;
use crate::push::push_digits;
use script_text::{push_decimal, push_runs};
use std::alloc::AllocError;
use wire_table::get_at;

// A field's name between spaces.
pub fn push_name(text: &mut Vec<u8>, name: &str) -> Result<(), AllocError>
    ensures text { OnOk result (text.new.items ≡ text.old.items ++ (32 ∷ (name.now ++ (32 ∷ [])))) }
    ensures short { OnOk result (vec_len text.new ≤ vec_len text.old + 2 + length name.now) }
{
    text.push(b' ')?;
    text.extend_from_slice(name.as_bytes())?;
    text.push(b' ')?;
    Ok(())
}

/// A space, the name, a space and the value of the field at a place.
#[tactic(auto, unfolding(crate::specs::Pieces::named_text))]
fn push_field(
    text: &mut Vec<u8>,
    shown: Shown,
    width: usize,
    at: usize,
    bytes: &[u8],
) -> Result<(), AllocError>
    requires number { number_width shown width ≤ 8 }
    requires within { at + width ≤ length bytes.now }
    ensures text { OnOk result (text.new.items ≡ text.old.items ++ field_text shown width at bytes.now) }
    ensures short { OnOk result (vec_len text.new ≤ vec_len text.old + most_of shown width) }
{
    match shown {
        Shown::Hidden => Ok(()),
        Shown::Number(name) => {
            push_name(text, name)?;
            push_decimal(text, get_at(bytes, at, width))
        }
        Shown::Digits(name) => {
            push_name(text, name)?;
            push_digits(text, &bytes[at..at + width])
        }
        Shown::Runs(name) => {
            push_name(text, name)?;
            push_runs(text, &bytes[at..at + width])
        }
    }
}

/// Fields in order, from byte 4 on.
pub fn push_fields(
    text: &mut Vec<u8>,
    fields: &[(Shown, usize)],
    bytes: &[u8],
) -> Result<(), AllocError>
    requires { Holds fields.now 4 (length bytes.now) }
    ensures text { OnOk result (text.new.items ≡ text.old.items ++ fields_text fields.now 4 bytes.now) }
    ensures short { OnOk result (vec_len text.new ≤ vec_len text.old + most_in fields.now) }
{
    let mut at = 4;
    for (shown, width) in fields {
        push_field(text, *shown, *width, at, bytes)?;
        at += *width;
    }
    Ok(())
}
