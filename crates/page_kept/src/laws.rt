//! Laws of pages that packets lend: each function does nothing, and its contract is a law.
ghost use Rattle.std.specs.Prelude.{◌≡◌, ℕ, ◌<◌, ◌≤◌, List, Some};
ghost use Rattle.page_kept.specs.Layouts.{Loan, layout};

/// What a packet lends of a channel with `c` pages is one of them, and 1 to 512 of its words.
pub fn loans_fit()
    ensures { (c : ℕ) (p : List ℕ) (a : Loan) → (layout c).lends p ≡ Some a → (a.page < c) × (0 < a.words) × (a.words ≤ 512) }
{}
