//! The requests that lines make of a key-value service.
ghost use Rattle.std.specs.Prelude.{◌≡◌, ◌==◌, ◌<◌, ◌≤◌, true, not, length, IfSome};
ghost use Rattle.std.specs.Bool.{MatchBool};
ghost use Rattle.std.specs.List.{AllByRecursion, list_any};
ghost use Rattle.script_text.specs.Forms.{is_decimal};
ghost use Rattle.kvp_pool.specs.Pools.{IsText};
ghost use Rattle.kvp_ic.specs.Messages.{CanBeAsked};
ghost use Rattle.kvp_ic.specs.declared.message.Kvp.TheVariants.{Get, Delete};
ghost use Rattle.kvp_lines.specs.Rows.{text_said, pool_said, keyed_said, valued_said, placed_said};

use kvp_ic::Kvp;
use kvp_pool::Units;
use script_text::{number_of, within};

/// Gives each unit the value of its byte.
fn widen(word: &[u8], units: &mut [u16])
    requires { length units.old ≡ length word.now }
    ensures { units.new ≡ word.now }
{
    for i in 0..word.len() {
        units[i] = u16::from(word[i]);
    }
}

/// Whether a byte is 0.
fn has_zero(word: &[u8]) -> bool
    ensures { result ≡ list_any (λ c. c == 0) word.now }
{
    word.iter().any(|c| *c == 0)
}

/// Whether no byte is 0: so it is in every line.
fn is_whole(word: &[u8]) -> bool
    ensures value { result ≡ not (list_any (λ c. c == 0) word.now) }
    ensures text { MatchBool result (AllByRecursion (λ c. 0 < c) word.now) (¬ AllByRecursion (λ c. 0 < c) word.now) }
{
    !has_zero(word)
}

/// A word as a text of so many units, one for each of its bytes, where it is one.
fn text_of<const MIN: usize, const MAX: usize>(word: &[u8]) -> Option<Units<MIN, MAX>>
    ensures text { result ≡ text_said MIN MAX word.now }
    ensures range { IfSome result (IsText MIN MAX) }
{
    let len = word.len();
    if MIN <= len && len <= MAX && is_whole(word) {
        let mut units = [0; MAX];
        widen(word, &mut units[..len]);
        Some(Units::first(len, units))
    } else {
        None
    }
}

/// The number of a pool, 0 to 4.
pub fn pool_of(pool: &[u8]) -> Option<u8>
    requires { is_decimal pool.now ≡ true }
    ensures number { result ≡ pool_said pool.now }
    ensures range { IfSome result (λ p. p ≤ 4) }
{
    match within(0, 4, number_of(pool)) {
        Some(number) => Some(number as u8),
        None => None,
    }
}

/// A get of a key.
pub fn get_of(pool: &[u8], key: &[u8]) -> Option<Kvp>
    requires { is_decimal pool.now ≡ true }
    ensures request { result ≡ keyed_said Get pool.now key.now }
    ensures range { IfSome result CanBeAsked }
{
    let pool = pool_of(pool)?;
    let key = text_of(key)?;
    Some(Kvp::Get { pool, key })
}

/// A delete of a key.
pub fn delete_of(pool: &[u8], key: &[u8]) -> Option<Kvp>
    requires { is_decimal pool.now ≡ true }
    ensures request { result ≡ keyed_said Delete pool.now key.now }
    ensures range { IfSome result CanBeAsked }
{
    let pool = pool_of(pool)?;
    let key = text_of(key)?;
    Some(Kvp::Delete { pool, key })
}

/// A set of a key to a value.
pub fn set_of(pool: &[u8], key: &[u8], value: &[u8]) -> Option<Kvp>
    requires { is_decimal pool.now ≡ true }
    ensures request { result ≡ valued_said pool.now key.now value.now }
    ensures range { IfSome result CanBeAsked }
{
    let value = text_of(value)?;
    let pool = pool_of(pool)?;
    let key = text_of(key)?;
    Some(Kvp::Set { pool, key, value })
}

/// The pair at a place, which is a number of 32 bits.
pub fn enum_of(pool: &[u8], index: &[u8]) -> Option<Kvp>
    requires pool { is_decimal pool.now ≡ true }
    requires index { is_decimal index.now ≡ true }
    ensures request { result ≡ placed_said pool.now index.now }
    ensures range { IfSome result CanBeAsked }
{
    let pool = pool_of(pool)?;
    let index = within(0, u32::MAX, number_of(index))?;
    Some(Kvp::Enum { pool, index })
}
