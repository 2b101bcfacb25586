//! What the words of a step say.
ghost use Rattle.std.specs.Prelude.{◌≡◌, true, Option};
ghost use Rattle.script_text.specs.Words.{words};
ghost use Rattle.trace_lines.specs.Steps.{stored_op, number_in, load_of, store_of, load_row, store_row, raise_row, signal_row, signal_of, step_row};

use crate::place::{place_in, side_of};
use line_words::{is_value, value_of};
use ring_machine::{Op, Place, Side};
use script_text::first_word;
use trace_model::TraceWhat;

// A store of 1 to an end's own mark is the store of the mark.
fn stored_op(side: Side, place: Place, value: u64) -> Op
    ensures { result ≡ stored_op side place value }
{
    match place {
        Place::Mark(whose) if whose == side && value == 1 => Op::StoreMark(side),
        _ => Op::Store(place, value),
    }
}

fn load_of(side: Side, place: Option<Place>, value: Option<u64>) -> Option<TraceWhat>
    ensures { result ≡ load_of side place value }
{
    match (place, value) {
        (Some(place), Some(value)) => Some(TraceWhat::Step(side, Op::Load(place), value)),
        _ => None,
    }
}

fn store_of(side: Side, place: Option<Place>, value: Option<u64>) -> Option<TraceWhat>
    ensures { result ≡ store_of side place value }
{
    match (place, value) {
        (Some(place), Some(value)) => {
            Some(TraceWhat::Step(side, stored_op(side, place, value), 0))
        }
        _ => None,
    }
}

// The number of a word that has its form.
fn number_in(word: &[u8]) -> Option<Option<u64>>
    ensures { result ≡ number_in word.now }
{
    if is_value(word) {
        Some(value_of(word))
    } else {
        None
    }
}

// PLACE VALUE, behind load.
fn load_row(d: u32, side: Side, rest: &[u8]) -> Option<Option<TraceWhat>>
    ensures { result ≡ load_row d side (words rest.now) }
{
    let (place, rest) = first_word(rest)?;
    let (value, rest) = first_word(rest)?;
    let place = place_in(d, place)?;
    let value = number_in(value)?;
    match first_word(rest) {
        None => Some(load_of(side, place, value)),
        Some(_) => None,
    }
}

// PLACE VALUE, behind store.
fn store_row(d: u32, side: Side, rest: &[u8]) -> Option<Option<TraceWhat>>
    ensures { result ≡ store_row d side (words rest.now) }
{
    let (place, rest) = first_word(rest)?;
    let (value, rest) = first_word(rest)?;
    let place = place_in(d, place)?;
    let value = number_in(value)?;
    match first_word(rest) {
        None => Some(store_of(side, place, value)),
        Some(_) => None,
    }
}

// SIDE, behind raise.
fn raise_row(side: Side, rest: &[u8]) -> Option<Option<TraceWhat>>
    ensures { result ≡ raise_row side (words rest.now) }
{
    let (whose, rest) = first_word(rest)?;
    let whose = side_of(whose)?;
    match first_word(rest) {
        None => Some(Some(TraceWhat::Step(side, Op::Raise(whose), 0))),
        Some(_) => None,
    }
}

fn signal_of(side: Side, value: Option<u64>) -> Option<TraceWhat>
    ensures { result ≡ signal_of side value }
{
    match value {
        Some(value) => Some(TraceWhat::Step(side, Op::TakeSignal(side), value)),
        None => None,
    }
}

// VALUE, behind signal.
fn signal_row(side: Side, rest: &[u8]) -> Option<Option<TraceWhat>>
    ensures { result ≡ signal_row side (words rest.now) }
{
    let (value, rest) = first_word(rest)?;
    let value = number_in(value)?;
    match first_word(rest) {
        None => Some(signal_of(side, value)),
        Some(_) => None,
    }
}

/// What the words behind `step` say of a channel whose rings have `d` bytes of data. It is none inside where a value is out of range.
pub(crate) fn step_row(d: u32, rest: &[u8]) -> Option<Option<TraceWhat>>
    ensures { result ≡ step_row d (words rest.now) }
{
    let (side, rest) = first_word(rest)?;
    let (kind, rest) = first_word(rest)?;
    let side = side_of(side)?;
    if kind == b"load".as_slice() {
        load_row(d, side, rest)
    } else if kind == b"store".as_slice() {
        store_row(d, side, rest)
    } else if kind == b"raise".as_slice() {
        raise_row(side, rest)
    } else if kind == b"signal".as_slice() {
        signal_row(side, rest)
    } else {
        None
    }
}
