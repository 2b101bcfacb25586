//! The verdict on an input.
ghost use Rattle.std.specs.Prelude.{◌≡◌};
ghost use Rattle.trace_lines.specs.Traces.{trace_of};
ghost use Rattle.trace_check.specs.Checks.{Checks, ChecksLines, number_of_why};

use crate::fault::TraceFault;
use crate::reading::Reading;
use script_text::{ParseFault, ScriptFault, Why6, first_line};
use std::alloc::Global;
use trace_model::Verdict;

// The bytes of an input.
const MOST: usize = 1_048_576;

fn wrong(line: u32, why: Why6) -> ParseFault
    ensures { result ≡ ParseFault.Script (record { line = line; why = why }) }
{
    ParseFault::Script(ScriptFault { line, why })
}

/// Whether the lines of an input are a run of the two ends of one channel, with how many steps and with how many packets that each end sent and got; or else the
/// first line that goes on no run, and the first reason against it. An input that is no trace is refused with its first wrong line in form, also where that
/// stands behind a line that goes on no run. It answers `Memory` for want of memory alone.
pub fn check_lines(alloc: Global, bytes: &[u8]) -> Result<Verdict, ParseFault>
    ensures { ChecksLines (trace_of bytes.now) result }
{
    if bytes.len() > MOST {
        return Err(wrong(0, Why6::Limit));
    }
    let mut reading = Reading::new(alloc)?;
    let mut rest = bytes;
    let mut number: u32 = 1;
    while let Some((line, after)) = first_line(rest) {
        reading.line(alloc, number, line)?;
        number += 1;
        rest = after;
    }
    Ok(reading.verdict())
}

fn number_of_why(why: Why6) -> u8
    ensures { result ≡ number_of_why why }
{
    match why {
        Why6::Form => 1,
        Why6::UnknownName => 2,
        Why6::Repeat => 3,
        Why6::Range => 4,
        Why6::Limit => 5,
        Why6::Order => 6,
    }
}

/// The same, with the number of a reason in its place.
pub fn check(alloc: Global, bytes: &[u8]) -> Result<Verdict, TraceFault>
    ensures { Checks (trace_of bytes.now) result }
{
    match check_lines(alloc, bytes) {
        Ok(verdict) => Ok(verdict),
        Err(ParseFault::Script(fault)) => Err(TraceFault::Form {
            line: fault.line,
            why: number_of_why(fault.why),
        }),
        Err(ParseFault::Memory) => Err(TraceFault::Memory),
    }
}
