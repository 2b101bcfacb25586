//! Cutting a script into phases.
ghost use Rattle.std.specs.Prelude.{◌≡◌, ◌≤◌, ◌∷◌, [], ℕ, length, take, drop, MatchOption, ⊤, Some};
ghost use Rattle.script_lines.specs.Lines.{is_phase};
ghost use Rattle.script_lines.specs.Parts.{parts};
ghost use Rattle.phase_plan.specs.Opened.{parts_left};

use script_lines::{Line, What};

fn is_phase(what: &What) -> bool
    ensures { result ≡ is_phase what.now }
{
    matches!(what, What::Phase)
}

/// The lines of the first phase, and the place behind the line that ends it; none where no line does.
fn first_part(lines: &[Line]) -> (&[Line], Option<usize>)
    ensures parts { MatchOption result.1 (parts lines.now ≡ result.0.now ∷ []) (λ next. parts lines.now ≡ result.0.now ∷ parts (drop next lines.now)) }
    ensures front { (n : ℕ) × (result.0.now ≡ take n lines.now) }
    ensures within { MatchOption result.1 ⊤ (λ next. next ≤ length lines.now) }
{
    for (i, line) in lines.iter().enumerate() {
        if is_phase(&line.what) {
            return (&lines[..i], Some(i + 1));
        }
    }
    (lines, None)
}

/// The lines of the phase that begins at a place, and the place where those of the next one begin; none where no phase is left.
pub fn part_at(lines: &[Line], at: usize) -> (&[Line], Option<usize>)
    requires { at ≤ length lines.now }
    ensures parts { parts_left lines.now (Some at) ≡ result.0.now ∷ parts_left lines.now result.1 }
    ensures front { (n : ℕ) × (result.0.now ≡ take n (drop at lines.now)) }
    ensures within { MatchOption result.1 ⊤ (λ next. next ≤ length lines.now) }
{
    let (_, rest) = lines.split_at(at);
    let (part, behind) = first_part(rest);
    match behind {
        Some(count) => (part, Some(at + count)),
        None => (part, None),
    }
}
