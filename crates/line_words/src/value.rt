//! Numbers in either base.
ghost use Rattle.std.specs.Prelude.{◌≡◌, true, Option};
ghost use Rattle.line_words.specs.Values.{is_hex_value, is_value, value_of, hex_value_of};

use crate::hex::{are_hex, number_of_hex};
use script_text::{is_decimal, number_of};

fn is_hex_value(word: &[u8]) -> bool
    ensures { result ≡ is_hex_value word.now }
{
    match word {
        [zero, x, digits @ ..] => {
            *zero == b'0'
                && *x == b'x'
                && 1 <= digits.len()
                && digits.len() <= 16
                && are_hex(digits)
        }
        _ => false,
    }
}

fn hex_value_of(word: &[u8]) -> u64
    requires { is_hex_value word.now ≡ true }
    ensures { result ≡ hex_value_of word.now }
{
    match word {
        [_, _, digits @ ..] => number_of_hex(digits),
        _ => 0,
    }
}

/// Whether a word is a number: decimal, or `0x` and 1 to 16 hexadecimal digits of either case.
pub fn is_value(word: &[u8]) -> bool
    ensures { result ≡ is_value word.now }
{
    is_decimal(word) || is_hex_value(word)
}

/// The number that it writes, where that is below 2^64.
pub fn value_of(word: &[u8]) -> Option<u64>
    requires { is_value word.now ≡ true }
    ensures { result ≡ value_of word.now }
{
    if is_decimal(word) {
        number_of(word)
    } else {
        Some(hex_value_of(word))
    }
}
