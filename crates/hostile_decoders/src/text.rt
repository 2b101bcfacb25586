//! Numbers with a text before them.
ghost use Rattle.std.specs.Prelude.{◌≡◌, ◌≤◌, ◌+◌, ◌++◌, OnOk, vec_len, length};
ghost use Rattle.std.specs.Fmt.{decimal};

use script_text::push_decimal;
use std::alloc::AllocError;

/// Puts these bytes behind the text.
pub(crate) fn push(text: &mut Vec<u8>, bytes: &[u8]) -> Result<(), AllocError>
    ensures text { OnOk result (text.new.items ≡ text.old.items ++ bytes.now) }
    ensures short { OnOk result (vec_len text.new ≤ vec_len text.old + length bytes.now) }
{
    text.extend_from_slice(bytes)?;
    Ok(())
}

/// A text before a number.
pub(crate) fn push_named(text: &mut Vec<u8>, name: &[u8], number: u64) -> Result<(), AllocError>
    ensures text { OnOk result (text.new.items ≡ text.old.items ++ (name.now ++ decimal number)) }
    ensures short { OnOk result (vec_len text.new ≤ vec_len text.old + length name.now + 20) }
{
    push(text, name)?;
    push_decimal(text, number)
}

/// Two numbers, each with a text before it.
pub(crate) fn push_two(
    text: &mut Vec<u8>,
    name: &[u8],
    number: u64,
    then: &[u8],
    other: u64,
) -> Result<(), AllocError>
    ensures text { OnOk result (text.new.items ≡ text.old.items ++ ((name.now ++ decimal number) ++ (then.now ++ decimal other))) }
    ensures short { OnOk result (vec_len text.new ≤ vec_len text.old + length name.now + length then.now + 40) }
{
    push_named(text, name, number)?;
    push_named(text, then, other)
}
