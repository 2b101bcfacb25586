//! The words of a line, by their places.
ghost use Rattle.std.specs.Prelude.{◌≡◌, ◌==◌, ◌+◌, [], ◌∷◌, length, Some, None, IfSome, MatchOption};
ghost use Rattle.std.specs.List.{slice_split};
ghost use Rattle.script_explain.specs.Places.{same_word, text_at, word_at};

/// A part of a line.
#[derive(Clone, Copy, Debug, PartialEq, Eq)]
pub(crate) struct Mark {
    /// Its first byte.
    pub at: usize,
    /// How many bytes it has.
    pub len: usize,
}

// What stands before the first space, and what stands behind it.
fn cut(line: &[u8]) -> Option<(&[u8], &[u8])>
    ensures parts { MatchOption result (slice_split (λ b. b == 32) line.now ≡ line.now ∷ []) (λ cut. slice_split (λ b. b == 32) line.now ≡ cut.0.now ∷ slice_split (λ b. b == 32) cut.1.now) }
    ensures size { IfSome result (λ cut. length cut.0.now + (1 + length cut.1.now) ≡ length line.now) }
{
    for (i, b) in line.iter().enumerate() {
        if *b == b' ' {
            return Some((&line[..i], &line[i + 1..]));
        }
    }
    None
}

/// The n-th word, from 0 on, with the place of its first byte.
pub(crate) fn word_at(line: &[u8], n: usize) -> Option<(usize, &[u8])>
    ensures { MatchOption result (word_at line.now n ≡ None) (λ w. word_at line.now n ≡ Some (w.0, w.1.now)) }
{
    let mut rest = line;
    let mut at = 0;
    let mut left = n;
    while let Some((part, after)) = cut(rest) {
        if !part.is_empty() {
            if left == 0 {
                return Some((at, part));
            }
            left -= 1;
        }
        at += part.len() + 1;
        rest = after;
    }
    if left == 0 && !rest.is_empty() {
        Some((at, rest))
    } else {
        None
    }
}

/// The bytes of the n-th word; none where there is no such word.
pub(crate) fn text_at(line: &[u8], n: usize) -> &[u8]
    ensures { result.now ≡ text_at line.now n }
{
    match word_at(line, n) {
        Some((_, word)) => word,
        None => &[],
    }
}

/// Whether two lines have the same word there, or neither has one.
pub(crate) fn same_word(one: &[u8], other: &[u8], n: usize) -> bool
    ensures { result ≡ same_word one.now other.now n }
{
    text_at(one, n) == text_at(other, n)
}
