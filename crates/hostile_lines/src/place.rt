//! Words that name places of a channel.
ghost use Rattle.std.specs.Prelude.{◌≡◌, ℕ, Option, Some, None, IfSome};
ghost use Rattle.hostile_lines.specs.Places.{ring_of, offset_of, cell_of, header_of, number_in, put_of};
ghost use Rattle.ring_machine.specs.Places.{IsPlaceOf};

use crate::command::Put;
use line_words::{is_value, value_of};
use ring_machine::{Place, Ring};
use script_text::{is_decimal, number_of};

/// The ring that a word names: `in` is the one to the guest, whose end is under test.
pub(crate) fn ring_of(word: &[u8]) -> Option<Ring>
    ensures { result ≡ ring_of word.now }
{
    if word == b"in".as_slice() {
        Some(Ring::ToGuest)
    } else if word == b"out".as_slice() {
        Some(Ring::ToHost)
    } else {
        None
    }
}

// A cell's offset: a multiple of 8 below the ring's size.
fn offset_of(d: u32, at: Option<u64>) -> Option<u32>
    ensures { result ≡ offset_of d at }
{
    match at {
        Some(at) if at < u64::from(d) && at % 8 == 0 => Some(at as u32),
        _ => None,
    }
}

/// The offset that a word writes, where it is a number. It is none inside where that is no cell of a ring of `d` bytes of data.
pub(crate) fn cell_of(d: u32, offset: &[u8]) -> Option<Option<u32>>
    ensures { result ≡ cell_of d offset.now }
{
    if is_decimal(offset) {
        Some(offset_of(d, number_of(offset)))
    } else {
        None
    }
}

/// The header word of a ring that a word names.
pub(crate) fn header_of(ring: Ring, name: &[u8]) -> Option<Place>
    ensures place { result ≡ header_of ring name.now }
    ensures header { (n : ℕ) → IfSome result (IsPlaceOf n 0) }
{
    if name == b"write".as_slice() {
        Some(Place::Write(ring))
    } else if name == b"read".as_slice() {
        Some(Place::Read(ring))
    } else if name == b"mask".as_slice() {
        Some(Place::Mask(ring))
    } else if name == b"pending".as_slice() {
        Some(Place::Pending(ring))
    } else if name == b"feature".as_slice() {
        Some(Place::Feature(ring))
    } else {
        None
    }
}

/// The number of a word that has its form.
pub(crate) fn number_in(word: &[u8]) -> Option<Option<u64>>
    ensures { result ≡ number_in word.now }
{
    if is_value(word) {
        Some(value_of(word))
    } else {
        None
    }
}

/// The word that is set, where its place and its value are in range.
pub(crate) fn put_of(place: Option<Place>, value: Option<u64>) -> Option<Put>
    ensures { result ≡ put_of place value }
{
    match (place, value) {
        (Some(place), Some(value)) => Some(Put { place, value }),
        _ => None,
    }
}
