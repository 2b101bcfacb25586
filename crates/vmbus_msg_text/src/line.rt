//! One line of hexadecimal digits.
ghost use Rattle.std.specs.Prelude.{◌≡◌, ◌<◌, ◌≤◌, ◌++◌, ◌+◌, List, length, OnOk, vec_len, Option};
ghost use Rattle.vmbus_msg_text.specs.Output.{bytes_fault, line_text};

use crate::message::push_bytes;
use script_text::{Why6, push_decimal};
use std::alloc::AllocError;

/// Why a line of these bytes is refused: `Form` where there are none, `Limit` where there are
/// more than 512, or it is past line 20,000.
pub fn bytes_fault(number: u32, bytes: &[u8]) -> Option<Why6>
    ensures { result ≡ bytes_fault number bytes.now }
{
    if bytes.is_empty() {
        Some(Why6::Form)
    } else if bytes.len() <= 512 && number <= 20_000 {
        None
    } else {
        Some(Why6::Limit)
    }
}

/// The line's number and the text of its bytes.
pub fn push_line(text: &mut Vec<u8>, number: u32, bytes: &[u8]) -> Result<(), AllocError>
    ensures text { OnOk result (text.new.items ≡ text.old.items ++ line_text number bytes.now) }
    ensures short { OnOk result (vec_len text.new ≤ vec_len text.old + 3350) }
{
    push_decimal(text, number as u64)?;
    text.extend_from_slice(b" ")?;
    push_bytes(text, bytes)?;
    text.extend_from_slice(b"\n")?;
    Ok(())
}
