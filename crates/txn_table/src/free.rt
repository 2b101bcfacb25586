//! Free places of a row.
ghost use Rattle.std.specs.Prelude.{◌≡◌, slice_get, MatchOption, IsSome, All, Some, None, IfOk, replicate};

use std::alloc::{AllocError, Global};

/// The first place with no key.
pub fn first_free(keys: &[Option<usize>]) -> Option<usize>
    ensures { MatchOption result (All IsSome keys.now) (λ i. slice_get keys.now i ≡ Some None) }
{
    keys.iter().position(Option::is_none)
}

/// This many places with no key.
pub fn free_places(alloc: Global, count: usize) -> Result<Vec<Option<usize>>, AllocError>
    ensures { IfOk result (λ v. v.items ≡ replicate count None) }
{
    Vec::from_elem(alloc, None, count)
}
