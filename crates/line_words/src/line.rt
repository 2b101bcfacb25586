//! The words of a line.
ghost use Rattle.std.specs.Prelude.{◌≡◌, List, Some, None, MatchOption};
ghost use Rattle.std.specs.List.{list_all};
ghost use Rattle.script_text.specs.Words.{words};
ghost use Rattle.line_words.specs.Lines.{is_printable, begins_comment, words_in};

use script_text::first_word;

fn are_printable(line: &[u8]) -> bool
    ensures { result ≡ list_all is_printable line.now }
{
    line.iter().all(|c| 0x20 <= *c && *c <= 0x7E)
}

fn begins_comment(word: &[u8]) -> bool
    ensures { result ≡ begins_comment word.now }
{
    match word {
        [first, ..] => *first == b'#',
        [] => false,
    }
}

/// The bytes in which a line's words stand, none of them where the line is passed over: it has no words, or the first one begins with `#`. The answer is
/// none where a byte of the line isn't 0x20 to 0x7E.
pub fn words_in(line: &[u8]) -> Option<&[u8]>
    ensures { MatchOption result (words_in line.now ≡ None) (λ rest. words_in line.now ≡ Some (words rest.now)) }
{
    if !are_printable(line) {
        return None;
    }
    match first_word(line) {
        Some((key, _)) if begins_comment(key) => Some(&line[line.len()..]),
        _ => Some(line),
    }
}
