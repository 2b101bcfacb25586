//! How a key-value service's reply is written in an outcome.
ghost use Rattle.std.specs.Prelude.{◌≡◌, ◌≤◌, ◌++◌, ◌+◌, length, map, OnOk, vec_len};
ghost use Rattle.kvp_lines.specs.Replies.{unit_text, part_text, pair_text};

use kvp_ic::KvpReply;
use kvp_pool::Units;
use script_text::hex_8;
use std::alloc::AllocError;

/// A unit of a text as a byte: `?` where no word of a line has it.
fn unit_byte(unit: u16) -> u8
    ensures { result ≡ unit_text unit }
{
    if 0x21 <= unit && unit <= 0x7E {
        unit as u8
    } else {
        b'?'
    }
}

/// A text, a byte for each of its units.
fn push_units(text: &mut Vec<u8>, units: &[u16]) -> Result<(), AllocError>
    ensures text { OnOk result (text.new.items ≡ text.old.items ++ map unit_text units.now) }
    ensures short { OnOk result (vec_len text.new ≤ vec_len text.old + length units.now) }
{
    for i in 0..units.len() {
        text.push(unit_byte(units[i]))?;
    }
    Ok(())
}

/// A word and a text behind it, where there is one.
fn push_part<const MIN: usize, const MAX: usize>(
    text: &mut Vec<u8>,
    word: &[u8],
    part: &Option<Units<MIN, MAX>>,
) -> Result<(), AllocError>
    ensures text { OnOk result (text.new.items ≡ text.old.items ++ part_text word.now part.now) }
    ensures short { OnOk result (vec_len text.new ≤ vec_len text.old + length word.now + MAX) }
{
    match part {
        Some(units) => {
            text.extend_from_slice(word)?;
            push_units(text, units.units())
        }
        None => Ok(()),
    }
}

/// Writes a reply: its status, and the key and the value that came back.
pub fn push_pair(text: &mut Vec<u8>, reply: &KvpReply) -> Result<(), AllocError>
    ensures text { OnOk result (text.new.items ≡ text.old.items ++ pair_text reply.now) }
    ensures short { OnOk result (vec_len text.new ≤ vec_len text.old + 29 + 255 + 1023) }
{
    text.extend_from_slice(b"status 0x")?;
    text.extend_from_slice(&hex_8(reply.status))?;
    push_part(text, b" key ", &reply.key)?;
    push_part(text, b" value ", &reply.value)
}
