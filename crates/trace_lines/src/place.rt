//! Words that name places of a channel.
ghost use Rattle.std.specs.Prelude.{◌≡◌, Option, Some, None, MatchOption};
ghost use Rattle.trace_lines.specs.Places.{side_of, offset_of, behind, cell_of, cell_behind, cell_in, place_in};

use ring_machine::{Place, Ring, Side};
use script_text::{is_decimal, number_of};

/// The end that a word names.
pub(crate) fn side_of(word: &[u8]) -> Option<Side>
    ensures { result ≡ side_of word.now }
{
    if word == b"guest".as_slice() {
        Some(Side::Guest)
    } else if word == b"host".as_slice() {
        Some(Side::Host)
    } else {
        None
    }
}

// A cell's offset: a multiple of 8 below the ring's size.
fn offset_of(d: u32, ring: Ring, at: Option<u64>) -> Option<Place>
    ensures { result ≡ offset_of d ring at }
{
    match at {
        Some(at) if at < u64::from(d) && at % 8 == 0 => Some(Place::Cell(ring, at as u32)),
        _ => None,
    }
}

// A cell of the ring by the word of its offset.
fn cell_of(d: u32, ring: Ring, offset: &[u8]) -> Option<Option<Place>>
    ensures { result ≡ cell_of d ring offset.now }
{
    if is_decimal(offset) {
        Some(offset_of(d, ring, number_of(offset)))
    } else {
        None
    }
}

// What stands behind this front of a word.
fn behind<'a>(front: &[u8], word: &'a [u8]) -> Option<&'a [u8]>
    ensures { MatchOption result (behind front.now word.now ≡ None) (λ rest. behind front.now word.now ≡ Some rest.now) }
{
    if word.len() < front.len() {
        return None;
    }
    let (start, rest) = word.split_at(front.len());
    if start == front { Some(rest) } else { None }
}

// A cell of the ring by the word of its offset behind this front.
fn cell_behind(d: u32, ring: Ring, front: &[u8], word: &[u8]) -> Option<Option<Place>>
    ensures { result ≡ cell_behind d ring front.now word.now }
{
    let offset = behind(front, word)?;
    cell_of(d, ring, offset)
}

// A cell of either ring.
fn cell_in(d: u32, word: &[u8]) -> Option<Option<Place>>
    ensures { result ≡ cell_in d word.now }
{
    match cell_behind(d, Ring::ToHost, b"tohost.cell.", word) {
        Some(place) => Some(place),
        None => cell_behind(d, Ring::ToGuest, b"toguest.cell.", word),
    }
}

/// The place that a word names in a channel whose rings have `d` bytes of data. It is none inside where a cell's offset is none of the ring's.
pub(crate) fn place_in(d: u32, word: &[u8]) -> Option<Option<Place>>
    ensures { result ≡ place_in d word.now }
{
    if word == b"tohost.write".as_slice() {
        Some(Some(Place::Write(Ring::ToHost)))
    } else if word == b"tohost.read".as_slice() {
        Some(Some(Place::Read(Ring::ToHost)))
    } else if word == b"tohost.mask".as_slice() {
        Some(Some(Place::Mask(Ring::ToHost)))
    } else if word == b"tohost.pending".as_slice() {
        Some(Some(Place::Pending(Ring::ToHost)))
    } else if word == b"tohost.feature".as_slice() {
        Some(Some(Place::Feature(Ring::ToHost)))
    } else if word == b"toguest.write".as_slice() {
        Some(Some(Place::Write(Ring::ToGuest)))
    } else if word == b"toguest.read".as_slice() {
        Some(Some(Place::Read(Ring::ToGuest)))
    } else if word == b"toguest.mask".as_slice() {
        Some(Some(Place::Mask(Ring::ToGuest)))
    } else if word == b"toguest.pending".as_slice() {
        Some(Some(Place::Pending(Ring::ToGuest)))
    } else if word == b"toguest.feature".as_slice() {
        Some(Some(Place::Feature(Ring::ToGuest)))
    } else if word == b"guest.mark".as_slice() {
        Some(Some(Place::Mark(Side::Guest)))
    } else if word == b"host.mark".as_slice() {
        Some(Some(Place::Mark(Side::Host)))
    } else {
        cell_in(d, word)
    }
}
