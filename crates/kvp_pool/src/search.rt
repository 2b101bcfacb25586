//! The search for a key among places in order of their keys.
ghost use Rattle.std.specs.Prelude.{◌≡◌, MatchResult};
ghost use Rattle.std.specs.List.Sorted.{IsStrictlySortedBy};
ghost use Rattle.std.specs.Map.{keys_of};
ghost use Rattle.kvp_pool.specs.Pools.{key_order};
ghost use Rattle.kvp_pool.specs.Kept.{pair_at, pairs_at, IsThere, IsGap};

use crate::{Key, Val};
use slab::Slab;
use std::cmp::Ordering;

/// How the key at a place stands to this key. A place with no pair stands before each key.
fn compare(pairs: &Slab<(Key, Val)>, place: usize, key: &Key) -> Ordering
    ensures { result ≡ key_order (pair_at pairs.now place).0 key.now }
{
    let units = key.units();
    match pairs.get(place) {
        Some(pair) => pair.0.units().cmp(units),
        None => Ordering::Less,
    }
}

/// Where the pair of a key stands among these, or else where it would.
pub(crate) fn find(pairs: &Slab<(Key, Val)>, order: &[usize], key: &Key) -> Result<usize, usize>
    requires { IsStrictlySortedBy key_order (keys_of (pairs_at pairs.now order.now)) }
    ensures { MatchResult result
        (IsThere key.now (pairs_at pairs.now order.now))
        (IsGap key.now (pairs_at pairs.now order.now)) }
{
    order.binary_search_by(|place| compare(pairs, *place, key))
}
