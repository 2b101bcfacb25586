//! What stands behind `kvp NAME` in a line.
ghost use Rattle.std.specs.Prelude.{◌≡◌, IfSome};
ghost use Rattle.script_text.specs.Words.{words};
ghost use Rattle.kvp_ic.specs.Messages.{CanBeAsked};
ghost use Rattle.kvp_ic.specs.declared.message.Kvp.TheVariants.{Get, Delete};
ghost use Rattle.kvp_lines.specs.Rows.{key_row, value_row, place_row, operation_row};

use crate::pair::{delete_of, enum_of, get_of, set_of};
use kvp_ic::Kvp;
use script_text::{first_word, is_decimal};

/// A get: `POOL KEY`.
fn get_row(rest: &[u8]) -> Option<Option<Kvp>>
    ensures said { result ≡ key_row Get (words rest.now) }
    ensures range { IfSome result (λ r. IfSome r CanBeAsked) }
{
    let (pool, rest) = first_word(rest)?;
    let (key, rest) = first_word(rest)?;
    match first_word(rest) {
        None if is_decimal(pool) => Some(get_of(pool, key)),
        None => None,
        Some(_) => None,
    }
}

/// A delete: `POOL KEY`.
fn delete_row(rest: &[u8]) -> Option<Option<Kvp>>
    ensures said { result ≡ key_row Delete (words rest.now) }
    ensures range { IfSome result (λ r. IfSome r CanBeAsked) }
{
    let (pool, rest) = first_word(rest)?;
    let (key, rest) = first_word(rest)?;
    match first_word(rest) {
        None if is_decimal(pool) => Some(delete_of(pool, key)),
        None => None,
        Some(_) => None,
    }
}

/// A set: `POOL KEY VALUE`.
fn value_row(rest: &[u8]) -> Option<Option<Kvp>>
    ensures said { result ≡ value_row (words rest.now) }
    ensures range { IfSome result (λ r. IfSome r CanBeAsked) }
{
    let (pool, rest) = first_word(rest)?;
    let (key, rest) = first_word(rest)?;
    let (value, rest) = first_word(rest)?;
    match first_word(rest) {
        None if is_decimal(pool) => Some(set_of(pool, key, value)),
        None => None,
        Some(_) => None,
    }
}

/// The pair at a place: `POOL INDEX`.
fn place_row(rest: &[u8]) -> Option<Option<Kvp>>
    ensures said { result ≡ place_row (words rest.now) }
    ensures range { IfSome result (λ r. IfSome r CanBeAsked) }
{
    let (pool, rest) = first_word(rest)?;
    let (index, rest) = first_word(rest)?;
    match first_word(rest) {
        None if is_decimal(pool) && is_decimal(index) => Some(enum_of(pool, index)),
        None => None,
        Some(_) => None,
    }
}

/// What is asked by an operation and the words behind it, or none where they are no row; a request with a value out of range is none.
pub fn operation_row(operation: &[u8], rest: &[u8]) -> Option<Option<Kvp>>
    ensures said { result ≡ operation_row operation.now (words rest.now) }
    ensures range { IfSome result (λ r. IfSome r CanBeAsked) }
{
    if operation == b"set".as_slice() {
        value_row(rest)
    } else if operation == b"get".as_slice() {
        get_row(rest)
    } else if operation == b"del".as_slice() {
        delete_row(rest)
    } else if operation == b"enum".as_slice() {
        place_row(rest)
    } else {
        None
    }
}
