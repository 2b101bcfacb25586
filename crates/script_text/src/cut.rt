//! Cutting bytes into lines, and a line into words.
ghost use Rattle.std.specs.Prelude.{◌≡◌, ◌==◌, ◌<◌, ◌≤◌, ◌∷◌, [], List, length, MatchOption};
ghost use Rattle.std.specs.List.{slice_split};
ghost use Rattle.std.specs.Str.Lines.{lines, strip_carriage_return};
ghost use Rattle.script_text.specs.Words.{words};

/// What stands before the first `at`, and what stands after it.
pub fn cut(bytes: &[u8], at: u8) -> Option<(&[u8], &[u8])>
    ensures parts { MatchOption result
        (slice_split (λ b. b == at) bytes.now ≡ bytes.now ∷ [])
        (λ cut. slice_split (λ b. b == at) bytes.now ≡ cut.0.now ∷ slice_split (λ b. b == at) cut.1.now) }
    ensures shorter { MatchOption result (Unit {0}) (λ cut. length cut.1.now < length bytes.now) }
{
    for (i, b) in bytes.iter().enumerate() {
        if *b == at {
            return Some((&bytes[..i], &bytes[i + 1..]));
        }
    }
    None
}

/// The first line, and the bytes after it. A line ends with a line feed, and a carriage return
/// before that is no part of it. The last line may lack its line feed.
pub fn first_line(bytes: &[u8]) -> Option<(&[u8], &[u8])>
    ensures line { MatchOption result (lines bytes.now ≡ []) (λ cut. lines bytes.now ≡ cut.0.now ∷ lines cut.1.now) }
    ensures shorter { MatchOption result (length bytes.now ≡ 0) (λ cut. length cut.1.now < length bytes.now) }
{
    if bytes.is_empty() {
        return None;
    }
    match cut(bytes, b'\n') {
        Some((line, rest)) => Some((without_return(line), rest)),
        None => Some((bytes, &bytes[bytes.len()..])),
    }
}

/// A line without the one carriage return that may end it.
fn without_return(line: &[u8]) -> &[u8]
    ensures { result.now ≡ strip_carriage_return line.now }
{
    if !line.is_empty() && line[line.len() - 1] == b'\r' {
        &line[..line.len() - 1]
    } else {
        line
    }
}

/// The first word of a line, and the bytes after it. Words stand between spaces.
pub fn first_word(line: &[u8]) -> Option<(&[u8], &[u8])>
    ensures { MatchOption result (words line.now ≡ []) (λ cut. words line.now ≡ cut.0.now ∷ words cut.1.now) }
{
    let mut rest = line;
    while let Some((word, after)) = cut(rest, b' ') {
        if !word.is_empty() {
            return Some((word, after));
        }
        rest = after;
    }
    if rest.is_empty() {
        None
    } else {
        Some((rest, &rest[rest.len()..]))
    }
}
