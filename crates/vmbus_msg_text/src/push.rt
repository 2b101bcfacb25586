//! Values pushed onto a text.
ghost use Rattle.std.specs.Prelude.{◌≡◌, ◌≤◌, ◌++◌, ◌+◌, ◌*◌, length, OnOk, vec_len};
ghost use Rattle.vmbus_msg_text.specs.Digits.{digits_text, numbers_text};

use script_text::{hex_2, push_decimal};
use std::alloc::AllocError;

/// Bytes as digits, byte by byte.
#[tactic(auto, unfolding(crate::specs::Digits::digits_text))]
pub fn push_digits(text: &mut Vec<u8>, bytes: &[u8]) -> Result<(), AllocError>
    ensures text { OnOk result (text.new.items ≡ text.old.items ++ digits_text bytes.now) }
    ensures short { OnOk result (vec_len text.new ≤ vec_len text.old + 2 * length bytes.now) }
{
    for byte in bytes {
        text.extend_from_slice(&hex_2(*byte))?;
    }
    Ok(())
}

/// Numbers in decimal digits, joined by commas.
#[tactic(auto, unfolding(crate::specs::Digits::numbers_text))]
pub fn push_numbers(text: &mut Vec<u8>, numbers: &[u64]) -> Result<(), AllocError>
    ensures text { OnOk result (text.new.items ≡ text.old.items ++ numbers_text numbers.now) }
    ensures short { OnOk result (vec_len text.new ≤ vec_len text.old + 21 * length numbers.now) }
{
    let [first, others @ ..] = numbers else {
        return Ok(());
    };
    push_decimal(text, *first)?;
    for number in others {
        text.extend_from_slice(b",")?;
        push_decimal(text, *number)?;
    }
    Ok(())
}
