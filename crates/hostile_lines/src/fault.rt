//! Why a line is refused after the lines before it.
ghost use Rattle.std.specs.Prelude.{◌≡◌, ◌≤◌, Option, Some, None, IfErr, IfOk};
ghost use Rattle.ring_machine.specs.Places.{IsRingSize};
ghost use Rattle.hostile_lines.specs.Ranges.{IsPages, IsSaidIn};
ghost use Rattle.hostile_lines.specs.Faults.{unless, data_of, is_command, is_long, limit_fault, order_fault, range_fault, row_fault, IsRead, IsRefused};

use crate::row::said_in;
use crate::said::Said;
use script_text::{ParseFault, ScriptFault, Why6};
use std::alloc::Global;

/// What the lines before a line come to, for the reasons against it.
#[derive(Clone, Copy)]
pub(crate) struct Before {
    /// The pages of each ring, where a line said them.
    pub ring: Option<u32>,
    /// No line with words came.
    pub first: bool,
    /// How many lines asked something.
    pub asked: usize,
}

fn unless(holds: bool, why: Why6) -> Option<Why6>
    ensures { result ≡ unless holds why }
{
    if holds { None } else { Some(why) }
}

fn is_command(said: &Said) -> bool
    ensures { result ≡ is_command said.now }
{
    matches!(said, Said::Long | Said::Asks(_))
}

fn is_long(said: &Said) -> bool
    ensures { result ≡ is_long said.now }
{
    matches!(said, Said::Long)
}

// There are 20,000 lines, 256 of them ask something, and digits write 512 bytes.
fn limit_fault(number: u32, asked: usize, said: &Said) -> Option<Why6>
    ensures { result ≡ limit_fault number asked said.now }
{
    unless(
        number <= 20_000 && (!is_command(said) || asked < 256) && !is_long(said),
        Why6::Limit,
    )
}

// A line of pages is the first line with words, and words change before all that is asked.
fn order_fault(first: bool, asked: usize, said: &Said) -> Option<Why6>
    ensures { result ≡ order_fault first asked said.now }
{
    match said {
        Said::Ring(_) => unless(first, Why6::Order),
        Said::Set(_) | Said::Before(_) => unless(asked == 0, Why6::Order),
        _ => None,
    }
}

// Each value is in its range.
fn range_fault(said: &Said) -> Option<Why6>
    ensures { result ≡ range_fault said.now }
{
    match said {
        Said::Nothing | Said::Long => None,
        Said::Ring(pages) => unless(pages.is_some(), Why6::Range),
        Said::Set(put) => unless(put.is_some(), Why6::Range),
        Said::Before(change) => unless(change.is_some(), Why6::Range),
        Said::Asks(command) => unless(command.is_some(), Why6::Range),
    }
}

// The first reason against a row, in the order Limit, Order, Range.
fn row_fault(number: u32, before: Before, said: &Said) -> Option<Why6>
    ensures { result ≡ row_fault number before.first before.asked said.now }
{
    limit_fault(number, before.asked, said)
        .or(order_fault(before.first, before.asked, said))
        .or(range_fault(said))
}

fn wrong(line: u32, why: Why6) -> ParseFault
    ensures { result ≡ ParseFault.Script (record { line = line; why = why }) }
{
    ParseFault::Script(ScriptFault { line, why })
}

// The bytes of data of a ring of so many pages.
fn data_of(ring: Option<u32>) -> u32
    requires { IsPages ring }
    ensures size { result ≡ data_of ring }
    ensures ring { IsRingSize result }
{
    4096 * ring.unwrap_or(1)
}

/// What line `number` says, behind lines that come to this. Or the first reason against it. `Form`: its words are no row of the table of lines, or a word hasn't
/// its form. `Limit`: it is line 20,001, asks something behind 256 that do, or writes more than 512 bytes. `Order`: it is a `ring` behind a line with words, or sets
/// a word behind a line that asks something. `Range`: a value is out of range. It answers `Memory` for want of memory alone.
pub(crate) fn read_line(
    alloc: Global,
    number: u32,
    before: Before,
    line: &[u8],
) -> Result<Said, ParseFault>
    requires { IsPages before.ring }
    ensures ok { IfOk result (λ said. IsRead number before.ring before.first before.asked line.now said) }
    ensures range { IfOk result (IsSaidIn (data_of before.ring)) }
    ensures err { IfErr result (λ fault. IsRefused number before.ring before.first before.asked line.now fault) }
{
    let Some(said) = said_in(alloc, data_of(before.ring), line)? else {
        return Err(wrong(number, Why6::Form));
    };
    match row_fault(number, before, &said) {
        Some(why) => Err(wrong(number, why)),
        None => Ok(said),
    }
}
