//! Cutting bytes in two.
ghost use Rattle.std.specs.Prelude.{◌≡◌, ◌==◌, ◌<◌, ◌∷◌, [], List, length, MatchOption};
ghost use Rattle.std.specs.List.{slice_split};

/// What stands before the first `at`, and what stands after it.
pub fn cut(bytes: &[u8], at: u8) -> Option<(&[u8], &[u8])>
    ensures parts { MatchOption result
        (slice_split (λ b. b == at) bytes.now ≡ bytes.now ∷ [])
        (λ cut. slice_split (λ b. b == at) bytes.now ≡ cut.0.now ∷ slice_split (λ b. b == at) cut.1.now) }
    ensures shorter { MatchOption result (Unit {0}) (λ cut. length cut.1.now < length bytes.now) }
{
    for (i, b) in bytes.iter().enumerate() {
        if *b == at {
            return Some((&bytes[..i], &bytes[i + 1..]));
        }
    }
    None
}
