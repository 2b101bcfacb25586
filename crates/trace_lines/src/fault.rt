//! Why a line is refused after the lines before it.
ghost use Rattle.std.specs.Prelude.{◌≡◌, ◌≤◌, Option, Some, None, IfErr, IfOk, OnOk};
ghost use Rattle.trace_lines.specs.Ranges.{IsPages, IsRanged};
ghost use Rattle.trace_lines.specs.Faults.{unless, data_of, order_fault, range_fault, row_fault, IsRead, IsRefused};

use crate::row::said_in;
use crate::said::Said;
use script_text::{ParseFault, ScriptFault, Why6};
use std::alloc::Global;

fn unless(holds: bool, why: Why6) -> Option<Why6>
    ensures { result ≡ unless holds why }
{
    if holds { None } else { Some(why) }
}

// A line of pages is the first line with words.
fn order_fault(first: bool, said: &Said) -> Option<Why6>
    ensures { result ≡ order_fault first said.now }
{
    match said {
        Said::Ring(_) => unless(first, Why6::Order),
        _ => None,
    }
}

// Each value is in its range.
fn range_fault(said: &Said) -> Option<Why6>
    ensures { result ≡ range_fault said.now }
{
    match said {
        Said::Nothing => None,
        Said::Ring(pages) => unless(pages.is_some(), Why6::Range),
        Said::Says(what) => unless(what.is_some(), Why6::Range),
    }
}

// The first reason against a row, in the order Limit, Order, Range.
fn row_fault(number: u32, first: bool, said: &Said) -> Option<Why6>
    ensures { result ≡ row_fault number first said.now }
{
    unless(number <= 20_000, Why6::Limit)
        .or(order_fault(first, said))
        .or(range_fault(said))
}

fn wrong(line: u32, why: Why6) -> ParseFault
    ensures { result ≡ ParseFault.Script (record { line = line; why = why }) }
{
    ParseFault::Script(ScriptFault { line, why })
}

// The bytes of data of a ring of so many pages.
fn data_of(ring: Option<u32>) -> u32
    requires { IsPages ring }
    ensures { result ≡ data_of ring }
{
    4096 * ring.unwrap_or(1)
}

/// What line `number` says in a trace where the lines before said that each ring has so many pages, or none did, and `first` is whether none of them has words.
/// Or the first reason against it. `Form`: its words are no row of the table of lines, or a word hasn't its form. `Limit`: it is line 20,001. `Order`: it is a
/// `ring` behind a line with words. `Range`: a value is out of range. It answers `Memory` for want of memory alone.
pub fn read_line(
    alloc: Global,
    number: u32,
    ring: Option<u32>,
    first: bool,
    line: &[u8],
) -> Result<Said, ParseFault>
    requires { IsPages ring }
    ensures ok { IfOk result (λ said. IsRead number ring first line.now said) }
    ensures range { IfOk result IsRanged }
    ensures err { IfErr result (λ fault. IsRefused number ring first line.now fault) }
{
    let Some(said) = said_in(alloc, data_of(ring), line)? else {
        return Err(wrong(number, Why6::Form));
    };
    match row_fault(number, first, &said) {
        Some(why) => Err(wrong(number, why)),
        None => Ok(said),
    }
}
