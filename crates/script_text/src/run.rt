//! Runs of one byte.
ghost use Rattle.std.specs.Prelude.{◌≡◌, ◌<◌, ◌≤◌, ◌+◌, ◌∷◌, [], List, length, MatchOption};
ghost use Rattle.script_text.specs.Runs.{run, runs_of, front_len};

/// So many of one byte.
#[derive(Clone, Copy)]
pub struct Run {
    /// The byte.
    pub byte: u8,
    /// How many of it stand one after the other.
    pub count: usize,
}

/// How many bytes at the front are this one.
fn front_len(bytes: &[u8], byte: u8) -> usize
    ensures value { result ≡ front_len byte bytes.now }
    ensures most { result ≤ length bytes.now }
{
    let mut count = 0;
    let mut rest = bytes;
    while let [first, after @ ..] = rest {
        if *first != byte {
            break;
        }
        count += 1;
        rest = after;
    }
    count
}

/// The first run, as long as it can be, and the bytes after it.
pub fn split_run(bytes: &[u8]) -> Option<(Run, &[u8])>
    ensures runs { MatchOption result (runs_of bytes.now ≡ []) (λ cut. runs_of bytes.now ≡ cut.0 ∷ runs_of cut.1.now) }
    ensures shorter { MatchOption result (length bytes.now ≡ 0) (λ cut. length cut.1.now < length bytes.now) }
{
    if bytes.is_empty() {
        return None;
    }
    let byte = bytes[0];
    let rest = bytes.split_at(1).1;
    let more = front_len(rest, byte);
    let count = more + 1;
    Some((Run { byte, count }, rest.split_at(more).1))
}
