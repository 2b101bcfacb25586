//! Texts in messages: units of two bytes, the low byte first, with a last unit of 0 behind them.

ghost use Rattle.std.specs.Prelude.{◌≡◌, ◌+◌, ◌*◌, ◌/◌, ◌<◌, ◌≤◌, ◌^◌, ◌++◌, length, take, drop, None, Some, true, IfSome, MatchResult};
ghost use Rattle.wire_table.specs.Little.{bytes_of};
ghost use Rattle.wire_table.specs.Rows.{numbers_in};
ghost use Rattle.util_ic.specs.Messages.{number_at, zeros};
ghost use Rattle.kvp_ic.specs.Texts.{text_size as size_for, field_of, size_at, is_size as is_text_size, text_at, text_in, is_right as stands_right, wrong_unit as first_wrong};
ghost use Rattle.kvp_ic.specs.Faults.{size_fault as wrong_size, text_fault as wrong_text};

use crate::KvpFault;
use kvp_pool::Units;
use wire_table::{get_at, put_at};

/// Where a message has a text.
#[derive(Clone, Copy)]
pub(crate) struct TextPlace {
    /// The byte at which its size stands.
    pub size_at: usize,
    /// The byte at which its field begins.
    pub at: usize,
}

/// The size of a text of these units, in bytes, with its last unit.
pub(crate) fn text_size(units: &[u16]) -> u32
    requires { length units.now ≤ 1023 }
    ensures { result ≡ size_for (length units.now) }
{
    2 * (units.len() as u32 + 1)
}

/// The size that a message says.
fn size_in(bytes: &[u8], place: TextPlace) -> usize
    requires { place.size_at + 4 ≤ length bytes.now }
    ensures value { result ≡ size_at place bytes.now }
    ensures fits { result < 2 ^ 32 }
{
    get_at(bytes, place.size_at, 4) as usize
}

/// Whether a size is even, and counts from the least units to the most with a last one.
fn is_size<const MIN: usize, const MAX: usize>(size: usize) -> bool
    requires least { MIN ≤ MAX }
    requires most { MAX ≤ 1023 }
    ensures { result ≡ is_text_size MIN MAX size }
{
    size % 2 == 0 && 2 * (MIN + 1) <= size && size <= 2 * (MAX + 1)
}

/// A text's size, where it is wrong.
pub(crate) fn size_fault<const MIN: usize, const MAX: usize>(
    bytes: &[u8],
    place: TextPlace,
) -> Option<KvpFault>
    requires least { MIN ≤ MAX }
    requires most { MAX ≤ 1023 }
    requires within { place.size_at + 4 ≤ length bytes.now }
    ensures { result ≡ wrong_size MIN MAX place bytes.now }
{
    let size = size_in(bytes, place);
    if is_size::<MIN, MAX>(size) {
        None
    } else {
        Some(KvpFault::Size { value: size as u32 })
    }
}

/// How many units a text of a right size has, with its last one.
fn count_in<const MIN: usize, const MAX: usize>(bytes: &[u8], place: TextPlace) -> usize
    requires most { MAX ≤ 1023 }
    requires within { place.size_at + 4 ≤ length bytes.now }
    requires size { is_text_size MIN MAX (size_at place bytes.now) ≡ true }
    ensures value { result ≡ size_at place bytes.now / 2 }
    ensures least { MIN + 1 ≤ result }
    ensures most { result ≤ MAX + 1 }
{
    size_in(bytes, place) / 2
}

/// The unit at a byte.
fn unit_at(bytes: &[u8], at: usize) -> u16
    requires { at + 2 ≤ length bytes.now }
    ensures { result ≡ number_at at 2 bytes.now }
{
    u16::from(bytes[at]) + 256 * u16::from(bytes[at + 1])
}

/// Whether a unit behind which so many follow is right: the last is 0, and no other.
fn is_right(unit: u16, left: usize) -> bool
    ensures { result ≡ stands_right unit left }
{
    if left == 0 { unit == 0 } else { unit != 0 }
}

/// The first of so many units that is wrong: one before the last that is 0, or else the last where it isn't.
fn wrong_unit(bytes: &[u8], at: usize, n: usize) -> Option<usize>
    requires { at + 2 * n ≤ length bytes.now }
    ensures value { result ≡ first_wrong 0 (numbers_in 2 n (drop at bytes.now)) }
    ensures few { IfSome result (λ k. k < n) }
{
    for i in 0..n {
        let unit = unit_at(bytes, at + 2 * i);
        if !is_right(unit, n - 1 - i) {
            return Some(i);
        }
    }
    None
}

/// Reads units from a byte on.
fn read_units(bytes: &[u8], at: usize, units: &mut [u16])
    requires { at + 2 * length units.old ≤ length bytes.now }
    ensures { units.new ≡ numbers_in 2 (length units.old) (drop at bytes.now) }
{
    for i in 0..units.len() {
        units[i] = unit_at(bytes, at + 2 * i);
    }
}

/// The text of a right size that a message has, or its first unit that is wrong, by its byte behind so many.
pub(crate) fn read_text<const MIN: usize, const MAX: usize>(
    bytes: &[u8],
    place: TextPlace,
    before: u32,
) -> Result<Units<MIN, MAX>, KvpFault>
    requires least { MIN ≤ MAX }
    requires most { MAX ≤ 1023 }
    requires before { before ≤ 512 }
    requires size_within { place.size_at + 4 ≤ length bytes.now }
    requires size { is_text_size MIN MAX (size_at place bytes.now) ≡ true }
    requires within { place.at + size_for MAX ≤ length bytes.now }
    ensures { MatchResult result
        (λ t. (wrong_text before place bytes.now ≡ None) × (t ≡ text_at place bytes.now))
        (λ e. wrong_text before place bytes.now ≡ Some e) }
{
    let n = count_in::<MIN, MAX>(bytes, place);
    if let Some(k) = wrong_unit(bytes, place.at, n) {
        return Err(KvpFault::Text {
            at: before + 2 * k as u32,
        });
    }
    let mut units = [0; MAX];
    read_units(bytes, place.at, &mut units[..n - 1]);
    Ok(Units::first(n - 1, units))
}

/// The text that a message has, where its size and its units are right.
pub(crate) fn find_text<const MIN: usize, const MAX: usize>(
    bytes: &[u8],
    place: TextPlace,
) -> Option<Units<MIN, MAX>>
    requires least { MIN ≤ MAX }
    requires most { MAX ≤ 1023 }
    requires size_within { place.size_at + 4 ≤ length bytes.now }
    requires within { place.at + size_for MAX ≤ length bytes.now }
    ensures { result ≡ text_in MIN MAX place bytes.now }
{
    if size_fault::<MIN, MAX>(bytes, place).is_some() {
        return None;
    }
    match read_text(bytes, place, 0) {
        Ok(text) => Some(text),
        Err(_) => None,
    }
}

/// Writes a unit, the low byte first. All other bytes stay.
fn put_unit(field: &mut [u8], at: usize, unit: u16)
    requires { at + 2 ≤ length field.old }
    ensures front { take (at + 2) field.new ≡ take at field.old ++ bytes_of 2 unit }
    ensures rest { drop (at + 2) field.new ≡ drop (at + 2) field.old }
{
    put_at(field, at, 2, u64::from(unit));
}

/// Clears bytes.
fn clear(part: &mut [u8])
    ensures { part.new ≡ zeros (length part.old) }
{
    part.fill(0);
}

/// Writes a text into the whole of a field, and zeros behind its units.
pub(crate) fn put_text(field: &mut [u8], units: &[u16])
    requires { 2 * length units.now ≤ length field.old }
    ensures { field.new ≡ field_of (length field.old) units.now }
{
    for i in 0..units.len() {
        put_unit(field, 2 * i, units[i]);
    }
    clear(&mut field[2 * units.len()..]);
}
