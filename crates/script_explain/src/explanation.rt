//! What is said of a script.
ghost use Rattle.std.specs.Prelude.{◌≡◌, ◌<◌, ◌≤◌, ◌-◌, ◌++◌, [], length, replicate, slice_get, Some, Err, IfOk, OnOk, MatchOption};
ghost use Rattle.std.specs.Str.Lines.{lines};
ghost use Rattle.script_lines.specs.Grammar.{script_of};
ghost use Rattle.script_explain.specs.Explained.{Explains, Tells, head_text, mark_text, reason_text, shown_text, why_text};
ghost use Rattle.script_explain.specs.Help.{help_text, row_text, said_text};

use crate::mark::Mark;
use crate::place::{earlier, mark_at, row_at};
use crate::row::Row;
use script_lines::parse;
use script_text::{ParseFault, ScriptFault, Why6, first_line, push_decimal};
use std::alloc::{AllocError, Global};

/// What is said of a script.
#[derive(Drop)]
pub struct Explanation {
    /// Whether the script is refused.
    pub refused: bool,
    /// What is said, in lines.
    pub text: Vec<u8>,
}

/// Says what is wrong with a script: its first wrong line with the reason, as the program says it, then the line itself, a mark under the word that is at fault, and what helps: the row of the
/// table of lines that begins with its first word, or the earlier line that it says again. Of bytes that are a script it says that no line is wrong. The refusal is want of memory.
pub fn explain(alloc: Global, bytes: &[u8]) -> Result<Explanation, AllocError>
    ensures { IfOk result (λ r. Explains (script_of bytes.now) bytes.now r.refused r.text.items) }
{
    let mut text = Vec::new(alloc);
    match parse(alloc, bytes) {
        Ok(_) => {
            text.extend_from_slice(b"no line is wrong\n")?;
            Ok(Explanation {
                refused: false,
                text,
            })
        }
        Err(ParseFault::Script(fault)) => {
            push_fault(&mut text, bytes, fault)?;
            Ok(Explanation {
                refused: true,
                text,
            })
        }
        Err(ParseFault::Memory) => Err(AllocError),
    }
}

// The line with this number.
#[tactic(auto, using(crate::proofs::LineLaws::past, crate::proofs::LineLaws::here, crate::proofs::LineLaws::behind))]
fn line_at(bytes: &[u8], number: u32) -> Option<&[u8]>
    requires { 1 ≤ number }
    ensures { MatchOption result (length (lines bytes.now) < number) (λ line. slice_get (lines bytes.now) (number - 1) ≡ Some line.now) }
{
    let mut rest = bytes;
    for _ in 0..number - 1 {
        let (_, after) = first_line(rest)?;
        rest = after;
    }
    let (line, _) = first_line(rest)?;
    Some(line)
}

fn push_fault(text: &mut Vec<u8>, bytes: &[u8], fault: ScriptFault) -> Result<(), AllocError>
    requires fault { script_of bytes.now ≡ Err fault }
    requires empty { text.old.items ≡ [] }
    ensures { OnOk result (Tells fault bytes.now text.new.items) }
{
    let Some(line) = line_at(bytes, fault.line) else {
        unreachable!()
    };
    push_head(text, fault, line)?;
    push_mark(text, mark_at(line, fault.why))?;
    push_help(text, bytes, fault, line)?;
    Ok(())
}

// The line's number and the reason, as the program says them.
fn push_reason(text: &mut Vec<u8>, fault: ScriptFault) -> Result<(), AllocError>
    ensures { OnOk result (text.new.items ≡ text.old.items ++ reason_text fault) }
{
    text.extend_from_slice(b"script line ")?;
    push_decimal(text, u64::from(fault.line))?;
    text.extend_from_slice(b": ")?;
    text.extend_from_slice(why_text(fault.why))?;
    Ok(())
}

// The line's text, in a line of its own behind what stands before it.
fn push_shown(text: &mut Vec<u8>, line: &[u8]) -> Result<(), AllocError>
    ensures { OnOk result (text.new.items ≡ text.old.items ++ shown_text line.now) }
{
    text.extend_from_slice(b"\n    ")?;
    text.extend_from_slice(line)?;
    text.extend_from_slice(b"\n")?;
    Ok(())
}

fn push_head(text: &mut Vec<u8>, fault: ScriptFault, line: &[u8]) -> Result<(), AllocError>
    ensures { OnOk result (text.new.items ≡ text.old.items ++ head_text fault line.now) }
{
    push_reason(text, fault)?;
    push_shown(text, line)?;
    Ok(())
}

// The reason in a word.
fn why_text(why: Why6) -> &'static [u8]
    ensures { result.now ≡ why_text why }
{
    match why {
        Why6::Form => b"Form",
        Why6::UnknownName => b"UnknownName",
        Why6::Repeat => b"Repeat",
        Why6::Range => b"Range",
        Why6::Limit => b"Limit",
        Why6::Order => b"Order",
    }
}

// So many times one byte.
fn push_times(text: &mut Vec<u8>, byte: u8, times: usize) -> Result<(), AllocError>
    ensures { OnOk result (text.new.items ≡ text.old.items ++ replicate times byte) }
{
    for _ in 0..times {
        text.push(byte)?;
    }
    Ok(())
}

// A mark under a part of the line above; where that is empty, under the byte behind it.
fn push_mark(text: &mut Vec<u8>, mark: Mark) -> Result<(), AllocError>
    ensures { OnOk result (text.new.items ≡ text.old.items ++ mark_text mark) }
{
    text.extend_from_slice(b"    ")?;
    push_times(text, b' ', mark.at)?;
    push_times(text, b'^', mark.len.max(1))?;
    text.extend_from_slice(b"\n")?;
    Ok(())
}

// Which earlier line is said again.
fn push_said(text: &mut Vec<u8>, found: Option<u32>) -> Result<(), AllocError>
    ensures { OnOk result (text.new.items ≡ text.old.items ++ said_text found) }
{
    if let Some(number) = found {
        text.extend_from_slice(b"    said in line ")?;
        push_decimal(text, u64::from(number))?;
        text.extend_from_slice(b" already\n")?;
    }
    Ok(())
}

// How a row is written.
fn push_row(text: &mut Vec<u8>, found: Option<Row>) -> Result<(), AllocError>
    ensures { OnOk result (text.new.items ≡ text.old.items ++ row_text found) }
{
    if let Some(row) = found {
        text.extend_from_slice(b"    ")?;
        text.extend_from_slice(row.told())?;
        text.extend_from_slice(b"\n")?;
    }
    Ok(())
}

// What helps: the earlier line, or the row.
fn push_help(
    text: &mut Vec<u8>,
    bytes: &[u8],
    fault: ScriptFault,
    line: &[u8],
) -> Result<(), AllocError>
    requires { 1 ≤ fault.line }
    ensures { OnOk result (text.new.items ≡ text.old.items ++ help_text bytes.now fault.line line.now fault.why) }
{
    match fault.why {
        Why6::Repeat => push_said(text, earlier(bytes, fault.line, line)),
        _ => push_row(text, row_at(line)),
    }
}
