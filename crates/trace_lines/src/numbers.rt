//! Numbers of 16 hexadecimal digits, joined by commas.
ghost use Rattle.std.specs.Prelude.{◌≡◌, true, IfOk};
ghost use Rattle.trace_lines.specs.Numbers.{are_numbers, numbers_of};

use line_words::{cut, is_hex_16, number_of_hex_16};
use std::alloc::{AllocError, Global};
use trace_model::Words;

/// Whether a word is numbers of 16 hexadecimal digits, joined by commas.
pub(crate) fn are_numbers(word: &[u8]) -> bool
    ensures { result ≡ are_numbers word.now }
{
    let mut rest = word;
    while let Some((number, after)) = cut(rest, b',') {
        if !is_hex_16(number) {
            return false;
        }
        rest = after;
    }
    is_hex_16(rest)
}

/// The numbers that it writes.
pub(crate) fn numbers_of(alloc: Global, word: &[u8]) -> Result<Words, AllocError>
    requires { are_numbers word.now ≡ true }
    ensures { IfOk result (λ numbers. numbers ≡ numbers_of word.now) }
{
    let mut numbers = Vec::with_capacity(alloc, word.len() / 17 + 1)?;
    let mut rest = word;
    while let Some((number, after)) = cut(rest, b',') {
        numbers.push(number_of_hex_16(number))?;
        rest = after;
    }
    numbers.push(number_of_hex_16(rest))?;
    Ok(Words::of(numbers))
}
