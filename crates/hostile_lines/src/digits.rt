//! Words of hexadecimal digits, two for each byte.
ghost use Rattle.std.specs.Prelude.{◌≡◌, ◌%◌, ◌*◌, ◌≤◌, ℕ, true, length, IfOk, IfSome, Some, None, Option};
ghost use Rattle.script_text.specs.Forms.{are_bytes, bytes_of};
ghost use Rattle.hostile_lines.specs.Ranges.{IsSaidIn};
ghost use Rattle.hostile_lines.specs.Rows.{gpadl_of, packet_of, vstor_of};

use crate::bytes::Bytes;
use crate::command::Command;
use crate::said::Said;
use script_text::{count_bytes, put_bytes};
use std::alloc::{AllocError, Global};

// The most digits of a word.
const MOST: usize = 1_024;

fn bytes_of(alloc: Global, word: &[u8]) -> Result<Bytes, AllocError>
    requires { are_bytes word.now ≡ true }
    ensures value { IfOk result (λ b. b ≡ bytes_of word.now) }
    ensures half { IfOk result (λ b. length word.now ≡ 2 * length b) }
{
    let mut held = Vec::from_elem(alloc, 0, count_bytes(word))?;
    put_bytes(word, &mut held);
    Ok(Bytes::of(held))
}

/// The command that hands such digits to an assembler of page lists.
pub(crate) fn gpadl_of(alloc: Global, word: &[u8]) -> Result<Said, AllocError>
    requires { are_bytes word.now ≡ true }
    ensures said { IfOk result (λ said. said ≡ gpadl_of word.now) }
    ensures range { (d : ℕ) → IfOk result (IsSaidIn d) }
{
    if word.len() > MOST {
        return Ok(Said::Long);
    }
    Ok(Said::Asks(Some(Command::Gpadl(bytes_of(alloc, word)?))))
}

/// The command that reads a storage packet.
pub(crate) fn vstor_of(alloc: Global, word: &[u8]) -> Result<Said, AllocError>
    requires { are_bytes word.now ≡ true }
    ensures said { IfOk result (λ said. said ≡ vstor_of word.now) }
    ensures range { (d : ℕ) → IfOk result (IsSaidIn d) }
{
    if word.len() > MOST {
        return Ok(Said::Long);
    }
    Ok(Said::Asks(Some(Command::Vstor(bytes_of(alloc, word)?))))
}

/// The command that reads a packet: its digits write two words at least, and whole ones.
pub(crate) fn packet_of(alloc: Global, word: &[u8]) -> Result<Said, AllocError>
    requires { are_bytes word.now ≡ true }
    ensures said { IfOk result (λ said. said ≡ packet_of word.now) }
    ensures range { (d : ℕ) → IfOk result (IsSaidIn d) }
{
    if word.len() > MOST {
        return Ok(Said::Long);
    }
    let count = count_bytes(word);
    if count % 8 != 0 || count < 16 {
        return Ok(Said::Asks(None));
    }
    Ok(Said::Asks(Some(Command::Packet(bytes_of(alloc, word)?))))
}
