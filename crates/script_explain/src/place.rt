//! Which word of a wrong line is at fault, and which earlier line it says again.
ghost use Rattle.std.specs.Prelude.{◌≡◌, ◌≤◌};
ghost use Rattle.script_explain.specs.Help.{earlier, says_again};
ghost use Rattle.script_explain.specs.Marks.{begins_with, far_word, fault_word, last_number, mark_at, mark_of, repeated_word, row_at, wrong_word};

use crate::form::Form;
use crate::mark::{Mark, same_word, text_at, word_at};
use crate::row::{Row, row_of};
use script_text::{Why6, first_line};

/// The row of the table of lines that a line nearly is: the one that begins with its first word.
pub(crate) fn row_at(line: &[u8]) -> Option<Row>
    ensures { result ≡ row_at line.now }
{
    row_of(text_at(line, 0), text_at(line, 1), text_at(line, 2))
}

/// Where the word at fault stands.
pub(crate) fn mark_at(line: &[u8], why: Why6) -> Mark
    ensures { result ≡ mark_at line.now why }
{
    match fault_word(line, why) {
        Some(n) => mark_of(line, n),
        None => Mark {
            at: 0,
            len: line.len(),
        },
    }
}

// Where the n-th word stands, or the end of the line.
fn mark_of(line: &[u8], n: usize) -> Mark
    ensures { result ≡ mark_of line.now n }
{
    match word_at(line, n) {
        Some((at, word)) => Mark {
            at,
            len: word.len(),
        },
        None => Mark {
            at: line.len(),
            len: 0,
        },
    }
}

// The number of the word that is at fault; none where the line as a whole is.
fn fault_word(line: &[u8], why: Why6) -> Option<usize>
    ensures { result ≡ fault_word line.now why }
{
    match why {
        Why6::Limit => None,
        Why6::Order => Some(0),
        Why6::UnknownName => Some(1),
        Why6::Repeat => Some(repeated_word(line)),
        Why6::Form => match row_at(line) {
            Some(row) => wrong_word(line, &row.forms()),
            None => Some(0),
        },
        Why6::Range => match row_at(line) {
            Some(row) => Some(far_word(line, &row.forms())),
            None => None,
        },
    }
}

fn begins_with(line: &[u8], key: &[u8]) -> bool
    ensures { result ≡ begins_with line.now key.now }
{
    text_at(line, 0) == key
}

// Of an offer the name stands behind the kind, and of a bad block its place is what is said again.
fn repeated_word(line: &[u8]) -> usize
    ensures { result ≡ repeated_word line.now }
{
    if begins_with(line, b"offer") || begins_with(line, b"bad") {
        2
    } else {
        1
    }
}

// The first word that hasn't its form, is missing, or is too many.
fn wrong_word(line: &[u8], forms: &[Form; 5]) -> Option<usize>
    ensures { result ≡ wrong_word line.now 1 forms.now }
{
    let mut n = 1;
    let mut rest = forms.as_slice();
    while let [form, others @ ..] = rest {
        if !form.fits(text_at(line, n)) {
            return Some(n);
        }
        n += 1;
        rest = others;
    }
    if text_at(line, n).is_empty() {
        None
    } else {
        Some(n)
    }
}

// The number that only the lines before tell out of range.
fn last_number(line: &[u8]) -> usize
    ensures { result ≡ last_number line.now }
{
    if begins_with(line, b"rescind") { 3 } else { 2 }
}

// The first word that is out of its range, or that number.
fn far_word(line: &[u8], forms: &[Form; 5]) -> usize
    ensures { result ≡ far_word line.now (last_number line.now) 1 forms.now }
{
    let mut n = 1;
    let mut rest = forms.as_slice();
    while let [form, others @ ..] = rest {
        if form.is_far(text_at(line, n)) {
            return n;
        }
        n += 1;
        rest = others;
    }
    last_number(line)
}

/// The last of the lines before this one that it says again.
pub(crate) fn earlier(bytes: &[u8], number: u32, line: &[u8]) -> Option<u32>
    requires { 1 ≤ number }
    ensures { result ≡ earlier bytes.now number line.now }
{
    let mut rest = bytes;
    let mut found = None;
    for n in 1..number {
        let Some((text, after)) = first_line(rest) else {
            return found;
        };
        if says_again(line, text) {
            found = Some(n);
        }
        rest = after;
    }
    found
}

// Whether a line says the same as an earlier text: an offer of the same name, the same bad block, or a line that begins with the same two words.
fn says_again(line: &[u8], text: &[u8]) -> bool
    ensures { result ≡ says_again line.now text.now }
{
    if !same_word(text, line, 0) {
        return false;
    }
    if begins_with(line, b"offer") {
        same_word(text, line, 2)
    } else if begins_with(line, b"bad") {
        same_word(text, line, 1) && same_word(text, line, 2)
    } else {
        same_word(text, line, 1)
    }
}
