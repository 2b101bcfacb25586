//! Lines of hexadecimal digits, each printed as the message that it is.
ghost use Rattle.std.specs.Prelude.{◌≡◌, ◌<◌, ◌≤◌, ◌++◌, ◌+◌, List, length, IfOk, Ok};
ghost use Rattle.hex.specs.Hex.{decode_of};
ghost use Rattle.vmbus_msg_text.specs.Output.{decode_output};
ghost use Rattle.vmbus_msg_text.specs.Prints.{Prints, ReadsLine};

use crate::line::{bytes_fault, push_line};
use hex::FromHexError;
use script_text::{ParseFault, ScriptFault, Why6, first_line};
use std::alloc::Global;

/// The text of each line of hexadecimal digits, in order, or the first wrong line and the first
/// reason against it: `Form` where it isn't digits in pairs, at least one pair, `Limit` where it
/// has more than 1,024 of them or is line 20,001. No line is passed over. It answers `Memory` for
/// want of memory alone.
pub fn decode_text(alloc: Global, bytes: &[u8]) -> Result<Vec<u8>, ParseFault>
    ensures text { Prints (decode_output bytes.now) result }
    ensures short { IfOk result (λ text. length text.items ≤ 67000000) }
{
    let mut text = Vec::new(alloc);
    let mut rest = bytes;
    let mut number: u32 = 1;
    while let Some((line, after)) = first_line(rest) {
        let bytes = read_line(alloc, number, line)?;
        match bytes_fault(number, &bytes) {
            Some(why) => return Err(fault_at(number, why)),
            None => {}
        }
        match push_line(&mut text, number, &bytes) {
            Ok(()) => {}
            Err(_) => return Err(ParseFault::Memory),
        }
        number += 1;
        rest = after;
    }
    Ok(text)
}

// What is wrong with this line.
fn fault_at(number: u32, why: Why6) -> ParseFault
    ensures { result ≡ ParseFault.Script (record { line = number; why = why }) }
{
    ParseFault::Script(ScriptFault { line: number, why })
}

/// The bytes of a line of digits.
fn read_line(alloc: Global, number: u32, line: &[u8]) -> Result<Vec<u8>, ParseFault>
    ensures { ReadsLine number (decode_of line.now) result }
{
    match hex::decode(alloc, line) {
        Ok(bytes) => Ok(bytes),
        Err(FromHexError::OutOfMemory) => Err(ParseFault::Memory),
        Err(_) => Err(fault_at(number, Why6::Form)),
    }
}
