//! An input is read line by line.
ghost use Rattle.std.specs.Prelude.{◌≡◌};
ghost use Rattle.hostile_lines.specs.Inputs.{hostile_of};
ghost use Rattle.hostile_lines.specs.Reads.{Parses};

use crate::hostile::Hostile;
use script_text::{ParseFault, ScriptFault, Why6, first_line};
use std::alloc::Global;

// The bytes of an input.
const MOST: usize = 1_048_576;

fn too_long() -> ParseFault
    ensures { result ≡ ParseFault.Script (record { line = 0; why = Why6.Limit }) }
{
    ParseFault::Script(ScriptFault {
        line: 0,
        why: Why6::Limit,
    })
}

/// What bytes say of a peer, and of the calls of an end beside it. Or their first wrong line, with the first reason against it; line 0 with `Limit` where they are
/// more than a mebibyte. It answers `Memory` for want of memory alone.
pub fn parse_hostile(alloc: Global, bytes: &[u8]) -> Result<Hostile, ParseFault>
    ensures { Parses (hostile_of bytes.now) result }
{
    if bytes.len() > MOST {
        return Err(too_long());
    }
    let mut hostile = Hostile::with_pages(alloc, None);
    let mut rest = bytes;
    let mut number: u32 = 1;
    while let Some((line, after)) = first_line(rest) {
        hostile.line(alloc, number, line)?;
        number += 1;
        rest = after;
    }
    Ok(hostile)
}
