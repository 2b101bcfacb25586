//! The rows of the table of lines.
ghost use Rattle.std.specs.Prelude.{◌≡◌, ℕ, true, Option, Some, None, IfOk, IfSome, MatchOption};
ghost use Rattle.script_text.specs.Words.{words};
ghost use Rattle.script_text.specs.Forms.{are_bytes};
ghost use Rattle.ring_machine.specs.Places.{IsRingSize};
ghost use Rattle.hostile_lines.specs.Ranges.{IsPutIn, IsCommandIn, IsChangeIn, IsSaidIn};
ghost use Rattle.hostile_lines.specs.Rows.{header_put, cell_put, put_by, put_row, change_of, before_row, send_of, arm_of, table_of, complete_of, show_of, alone, arm_row, show_row, number_alone, ring_row, call_row, part_row, plain_row, row_of, said_in, digits_alone};

use crate::command::{Command, EndCall, Put};
use crate::digits::{gpadl_of, packet_of, vstor_of};
use crate::place::{cell_of, header_of, number_in, put_of, ring_of};
use crate::said::Said;
use line_words::words_in;
use ring_core::Change;
use ring_machine::{Place, Ring};
use script_text::{are_bytes, first_word, is_decimal, number_of, within};
use std::alloc::{AllocError, Global};

// PLACE VALUE of a ring's header.
fn header_put(ring: Ring, name: &[u8], value: &[u8]) -> Option<Option<Put>>
    ensures put { result ≡ header_put ring name.now value.now }
    ensures range { (d : ℕ) → IfSome result (λ put. IfSome put (IsPutIn d)) }
{
    let place = header_of(ring, name)?;
    let value = number_in(value)?;
    Some(put_of(Some(place), value))
}

// cell OFFSET VALUE.
fn cell_put(d: u32, ring: Ring, name: &[u8], offset: &[u8], value: &[u8]) -> Option<Option<Put>>
    requires size { IsRingSize d }
    ensures put { result ≡ cell_put d ring name.now offset.now value.now }
    ensures range { IfSome result (λ put. IfSome put (IsPutIn d)) }
{
    if name != b"cell".as_slice() {
        return None;
    }
    let at = cell_of(d, offset)?;
    let value = number_in(value)?;
    match at {
        Some(at) => Some(put_of(Some(Place::Cell(ring, at)), value)),
        None => Some(None),
    }
}

// RING PLACE VALUE, behind set.
fn put_row(d: u32, rest: &[u8]) -> Option<Option<Put>>
    requires size { IsRingSize d }
    ensures put { result ≡ put_row d (words rest.now) }
    ensures range { IfSome result (λ put. IfSome put (IsPutIn d)) }
{
    let (ring, rest) = first_word(rest)?;
    let (name, rest) = first_word(rest)?;
    let (second, rest) = first_word(rest)?;
    let ring = ring_of(ring)?;
    let Some((third, rest)) = first_word(rest) else {
        return header_put(ring, name, second);
    };
    match first_word(rest) {
        None => cell_put(d, ring, name, second, third),
        Some(_) => None,
    }
}

fn change_of(step: Option<u32>, put: Option<Put>) -> Option<Change>
    ensures { result ≡ change_of step put }
{
    match (step, put) {
        (Some(step), Some(put)) => Some(Change {
            step: u64::from(step),
            place: put.place,
            value: put.value,
        }),
        _ => None,
    }
}

// N set RING PLACE VALUE, behind before.
fn before_row(d: u32, rest: &[u8]) -> Option<Said>
    requires size { IsRingSize d }
    ensures said { result ≡ before_row d (words rest.now) }
    ensures range { IfSome result (IsSaidIn d) }
{
    let (step, rest) = first_word(rest)?;
    let (set, rest) = first_word(rest)?;
    if !is_decimal(step) || set != b"set".as_slice() {
        return None;
    }
    let put = put_row(d, rest)?;
    Some(Said::Before(change_of(within(1, 1_000_000, number_of(step)), put)))
}

// The number of the one word, if it has its form.
fn one_number(rest: &[u8]) -> Option<Option<u64>>
    ensures { result ≡ number_alone (words rest.now) }
{
    let (word, rest) = first_word(rest)?;
    match first_word(rest) {
        None if is_decimal(word) => Some(number_of(word)),
        _ => None,
    }
}

fn send_of(d: u32, len: Option<u64>) -> Option<Command>
    requires size { IsRingSize d }
    ensures command { result ≡ send_of d len }
    ensures range { IfSome result (IsCommandIn d) }
{
    match len {
        Some(len) if 2 <= len && len < u64::from(d) / 8 - 1 => {
            Some(Command::Call(EndCall::Send(len as u32)))
        }
        _ => None,
    }
}

fn arm_of(d: u32, want: Option<u64>) -> Option<Command>
    requires size { IsRingSize d }
    ensures command { result ≡ arm_of d want }
    ensures range { IfSome result (IsCommandIn d) }
{
    match want {
        Some(want) if 24 <= want && want < u64::from(d) => {
            Some(Command::Call(EndCall::Arm(Some(want as u32))))
        }
        _ => None,
    }
}

fn table_of(size: Option<u64>) -> Option<Command>
    ensures command { result ≡ table_of size }
    ensures range { (d : ℕ) → IfSome result (IsCommandIn d) }
{
    Some(Command::Table(within(1, 64, size)?))
}

fn complete_of(id: Option<u64>) -> Option<Command>
    ensures command { result ≡ complete_of id }
    ensures range { (d : ℕ) → IfSome result (IsCommandIn d) }
{
    Some(Command::Complete(id?))
}

// Nothing or WANT, behind arm.
fn arm_row(d: u32, rest: &[u8]) -> Option<Said>
    requires size { IsRingSize d }
    ensures said { result ≡ arm_row d (words rest.now) }
    ensures range { IfSome result (IsSaidIn d) }
{
    match first_word(rest) {
        None => Some(Said::Asks(Some(Command::Call(EndCall::Arm(None))))),
        Some(_) => Some(Said::Asks(arm_of(d, one_number(rest)?))),
    }
}

// RING OFFSET, behind show.
fn show_row(d: u32, rest: &[u8]) -> Option<Said>
    requires size { IsRingSize d }
    ensures said { result ≡ show_row d (words rest.now) }
    ensures range { IfSome result (IsSaidIn d) }
{
    let (ring, rest) = first_word(rest)?;
    let (offset, rest) = first_word(rest)?;
    if first_word(rest).is_some() {
        return None;
    }
    let ring = ring_of(ring)?;
    match cell_of(d, offset)? {
        Some(at) => Some(Said::Asks(Some(Command::Show(ring, at)))),
        None => Some(Said::Asks(None)),
    }
}

// PAGES, behind ring.
fn ring_row(rest: &[u8]) -> Option<Said>
    ensures said { result ≡ ring_row (words rest.now) }
    ensures range { (d : ℕ) → IfSome result (IsSaidIn d) }
{
    let (pages, rest) = first_word(rest)?;
    match first_word(rest) {
        None if is_decimal(pages) => Some(Said::Ring(within(1, 16, number_of(pages)))),
        _ => None,
    }
}

// The bytes of the one word, if it has its form.
fn one_digits(rest: &[u8]) -> Option<&[u8]>
    ensures { MatchOption result (digits_alone (words rest.now) ≡ None) (λ w. (digits_alone (words rest.now) ≡ Some w.now) × (are_bytes w.now ≡ true)) }
{
    let (word, rest) = first_word(rest)?;
    match first_word(rest) {
        None if are_bytes(word) => Some(word),
        _ => None,
    }
}

// The call that a key word names, where it is one.
fn call_row(d: u32, key: &[u8], rest: &[u8]) -> Option<Said>
    requires size { IsRingSize d }
    ensures said { result ≡ call_row d key.now (words rest.now) }
    ensures range { IfSome result (IsSaidIn d) }
{
    if key == b"send".as_slice() {
        return Some(Said::Asks(send_of(d, one_number(rest)?)));
    }
    if key == b"arm".as_slice() {
        return arm_row(d, rest);
    }
    let call = if key == b"take".as_slice() {
        EndCall::Take
    } else if key == b"commit".as_slice() {
        EndCall::Commit
    } else if key == b"poll".as_slice() {
        EndCall::Poll
    } else {
        return None;
    };
    match first_word(rest) {
        None => Some(Said::Asks(Some(Command::Call(call)))),
        Some(_) => None,
    }
}

// What else is asked.
fn part_row(alloc: Global, d: u32, key: &[u8], rest: &[u8]) -> Result<Option<Said>, AllocError>
    requires size { IsRingSize d }
    ensures said { IfOk result (λ said. said ≡ part_row d key.now (words rest.now)) }
    ensures range { IfOk result (λ said. IfSome said (IsSaidIn d)) }
{
    if key == b"gpadl".as_slice() {
        return match one_digits(rest) {
            Some(digits) => Ok(Some(gpadl_of(alloc, digits)?)),
            None => Ok(None),
        };
    }
    if key == b"packet".as_slice() {
        return match one_digits(rest) {
            Some(digits) => Ok(Some(packet_of(alloc, digits)?)),
            None => Ok(None),
        };
    }
    if key == b"vstor".as_slice() {
        return match one_digits(rest) {
            Some(digits) => Ok(Some(vstor_of(alloc, digits)?)),
            None => Ok(None),
        };
    }
    Ok(plain_row(d, key, rest))
}

// What is asked without digits of bytes.
fn plain_row(d: u32, key: &[u8], rest: &[u8]) -> Option<Said>
    requires size { IsRingSize d }
    ensures said { result ≡ plain_row d key.now (words rest.now) }
    ensures range { IfSome result (IsSaidIn d) }
{
    if key == b"show".as_slice() {
        show_row(d, rest)
    } else if key == b"table".as_slice() {
        Some(Said::Asks(table_of(one_number(rest)?)))
    } else if key == b"complete".as_slice() {
        Some(Said::Asks(complete_of(one_number(rest)?)))
    } else if key == b"accept".as_slice() {
        match first_word(rest) {
            None => Some(Said::Asks(Some(Command::Accept))),
            Some(_) => None,
        }
    } else {
        call_row(d, key, rest)
    }
}

fn row_of(alloc: Global, d: u32, key: &[u8], rest: &[u8]) -> Result<Option<Said>, AllocError>
    requires size { IsRingSize d }
    ensures said { IfOk result (λ said. said ≡ row_of d key.now (words rest.now)) }
    ensures range { IfOk result (λ said. IfSome said (IsSaidIn d)) }
{
    if key == b"set".as_slice() {
        return match put_row(d, rest) {
            Some(put) => Ok(Some(Said::Set(put))),
            None => Ok(None),
        };
    }
    if key == b"before".as_slice() {
        return Ok(before_row(d, rest));
    }
    if key == b"ring".as_slice() {
        return Ok(ring_row(rest));
    }
    part_row(alloc, d, key, rest)
}

/// What a line says beside rings of `d` bytes of data, where it has printable bytes alone and its words are a row of the table.
pub(crate) fn said_in(alloc: Global, d: u32, line: &[u8]) -> Result<Option<Said>, AllocError>
    requires size { IsRingSize d }
    ensures said { IfOk result (λ said. said ≡ said_in d line.now) }
    ensures range { IfOk result (λ said. IfSome said (IsSaidIn d)) }
{
    let Some(rest) = words_in(line) else {
        return Ok(None);
    };
    match first_word(rest) {
        None => Ok(Some(Said::Nothing)),
        Some((key, rest)) => row_of(alloc, d, key, rest),
    }
}
