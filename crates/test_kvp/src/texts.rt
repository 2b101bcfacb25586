//! Keys and values of a test.
ghost use Rattle.std.specs.Prelude.{◌≡◌, ◌≤◌, length};

use crate::check::check;
use kvp_pool::{Key, Units, Val};
use std::process::Abort;

// The text of these characters, each one unit.
fn text<const MIN: usize, const MAX: usize>(rt: &impl Abort, chars: &str) -> Units<MIN, MAX> {
    let bytes = chars.as_bytes();
    let mut units = [0; 64];
    check(rt, bytes.len() <= 64);
    for i in 0..bytes.len() {
        units[i] = u16::from(bytes[i]);
    }
    of(rt, &units[..bytes.len()])
}

/// The text of these units.
pub fn of<const MIN: usize, const MAX: usize>(rt: &impl Abort, units: &[u16]) -> Units<MIN, MAX> {
    match Units::try_of(units) {
        Some(text) => text,
        None => {
            check(rt, false);
            unreachable!()
        }
    }
}

/// A key of these characters.
pub fn key(rt: &impl Abort, chars: &str) -> Key {
    text(rt, chars)
}

/// A value of these characters.
pub fn value(rt: &impl Abort, chars: &str) -> Val {
    text(rt, chars)
}

/// Whether a text has these characters.
pub fn is(units: &[u16], chars: &str) -> bool {
    let bytes = chars.as_bytes();
    if units.len() != bytes.len() {
        return false;
    }
    for i in 0..units.len() {
        if units[i] != u16::from(bytes[i]) {
            return false;
        }
    }
    true
}
