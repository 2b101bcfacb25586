//! The rows of the table of lines.
ghost use Rattle.std.specs.Prelude.{◌≡◌, Option, Some, None, IfOk, IfSome};
ghost use Rattle.script_text.specs.Words.{words};
ghost use Rattle.trace_lines.specs.Ranges.{IsRanged};
ghost use Rattle.trace_lines.specs.Rows.{says, call_alone, send_row, arm_of, arm_row, plain_call, call_row, ring_row, row_of, said_in};

use crate::numbers::{are_numbers, numbers_of};
use crate::operation::step_row;
use crate::place::side_of;
use crate::said::Said;
use line_words::words_in;
use ring_machine::Side;
use script_text::{first_word, is_decimal, number_of, within};
use std::alloc::{AllocError, Global};
use trace_model::{TraceCall, TraceWhat};

fn says(what: Option<Option<TraceWhat>>) -> Option<Said>
    ensures said { result ≡ says what }
    ensures range { IfSome result IsRanged }
{
    Some(Said::Says(what?))
}

// Nothing, behind the name of this call.
fn call_alone(side: Side, call: TraceCall, rest: &[u8]) -> Option<Said>
    ensures said { result ≡ call_alone side call (words rest.now) }
    ensures range { IfSome result IsRanged }
{
    match first_word(rest) {
        None => Some(Said::Says(Some(TraceWhat::Call(side, call)))),
        Some(_) => None,
    }
}

// Numbers of 16 hexadecimal digits joined by commas, behind send.
fn send_row(alloc: Global, side: Side, rest: &[u8]) -> Result<Option<Said>, AllocError>
    ensures said { IfOk result (λ said. said ≡ send_row side (words rest.now)) }
    ensures range { IfOk result (λ said. IfSome said IsRanged) }
{
    let Some((numbers, rest)) = first_word(rest) else {
        return Ok(None);
    };
    match first_word(rest) {
        None if are_numbers(numbers) => {
            let packet = numbers_of(alloc, numbers)?;
            Ok(Some(Said::Says(Some(TraceWhat::Call(side, TraceCall::Send(packet))))))
        }
        _ => Ok(None),
    }
}

fn arm_of(side: Side, want: Option<u64>) -> Option<TraceWhat>
    ensures { result ≡ arm_of side want }
{
    match want {
        Some(want) => Some(TraceWhat::Call(side, TraceCall::Arm(Some(want)))),
        None => None,
    }
}

// Nothing or WANT, behind arm.
fn arm_row(side: Side, rest: &[u8]) -> Option<Said>
    ensures said { result ≡ arm_row side (words rest.now) }
    ensures range { IfSome result IsRanged }
{
    let Some((want, rest)) = first_word(rest) else {
        return Some(Said::Says(Some(TraceWhat::Call(side, TraceCall::Arm(None)))));
    };
    match first_word(rest) {
        None if is_decimal(want) => Some(Said::Says(arm_of(side, number_of(want)))),
        _ => None,
    }
}

// SIDE and a call, behind call.
fn call_row(alloc: Global, rest: &[u8]) -> Result<Option<Said>, AllocError>
    ensures said { IfOk result (λ said. said ≡ call_row (words rest.now)) }
    ensures range { IfOk result (λ said. IfSome said IsRanged) }
{
    let Some((side, rest)) = first_word(rest) else {
        return Ok(None);
    };
    let Some((name, rest)) = first_word(rest) else {
        return Ok(None);
    };
    let Some(side) = side_of(side) else {
        return Ok(None);
    };
    if name == b"send".as_slice() {
        return send_row(alloc, side, rest);
    }
    Ok(plain_call(side, name, rest))
}

// A call that has no packet.
fn plain_call(side: Side, name: &[u8], rest: &[u8]) -> Option<Said>
    ensures said { result ≡ plain_call side name.now (words rest.now) }
    ensures range { IfSome result IsRanged }
{
    if name == b"take".as_slice() {
        call_alone(side, TraceCall::Take, rest)
    } else if name == b"commit".as_slice() {
        call_alone(side, TraceCall::Commit, rest)
    } else if name == b"arm".as_slice() {
        arm_row(side, rest)
    } else if name == b"poll".as_slice() {
        call_alone(side, TraceCall::Poll, rest)
    } else if name == b"mark".as_slice() {
        call_alone(side, TraceCall::Mark, rest)
    } else if name == b"peer".as_slice() {
        call_alone(side, TraceCall::PeerMark, rest)
    } else {
        None
    }
}

// PAGES, behind ring.
fn ring_row(rest: &[u8]) -> Option<Said>
    ensures said { result ≡ ring_row (words rest.now) }
    ensures range { IfSome result IsRanged }
{
    let (pages, rest) = first_word(rest)?;
    match first_word(rest) {
        None if is_decimal(pages) => Some(Said::Ring(within(1, 16, number_of(pages)))),
        _ => None,
    }
}

fn row_of(alloc: Global, d: u32, key: &[u8], rest: &[u8]) -> Result<Option<Said>, AllocError>
    ensures said { IfOk result (λ said. said ≡ row_of d key.now (words rest.now)) }
    ensures range { IfOk result (λ said. IfSome said IsRanged) }
{
    if key == b"step".as_slice() {
        Ok(says(step_row(d, rest)))
    } else if key == b"call".as_slice() {
        call_row(alloc, rest)
    } else if key == b"ring".as_slice() {
        Ok(ring_row(rest))
    } else {
        Ok(None)
    }
}

/// What a line says in a trace whose rings have `d` bytes of data, where it has printable bytes alone and its words are a row of the table.
pub(crate) fn said_in(alloc: Global, d: u32, line: &[u8]) -> Result<Option<Said>, AllocError>
    ensures said { IfOk result (λ said. said ≡ said_in d line.now) }
    ensures range { IfOk result (λ said. IfSome said IsRanged) }
{
    let Some(rest) = words_in(line) else {
        return Ok(None);
    };
    match first_word(rest) {
        None => Ok(Some(Said::Nothing)),
        Some((key, rest)) => row_of(alloc, d, key, rest),
    }
}
