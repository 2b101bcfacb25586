//! Laws of pools as finite maps: each function does nothing, and its contract is a law.
ghost use Rattle.std.specs.Prelude.{◌≡◌, ◌≢◌, ℕ, List, Some, None, slice_get, count_by};
ghost use Rattle.std.specs.Ordering.{is_lt};
ghost use Rattle.kvp_pool.specs.Pools.{Pairs, IsMap, key_order, value_in, with_pair, without};

/// A key that was set has its value.
pub fn set_key_has_its_value()
    ensures { (key value : List ℕ) (pool : Pairs)
        → value_in key (with_pair key value pool) ≡ Some value }
{}

/// Setting a key leaves the values of others.
pub fn set_leaves_others()
    ensures { (key value other : List ℕ) (pool : Pairs) → other ≢ key
        → value_in other (with_pair key value pool) ≡ value_in other pool }
{}

/// A key that was deleted has no value.
pub fn deleted_key_has_none()
    ensures { (key : List ℕ) (pool : Pairs) → IsMap pool
        → value_in key (without key pool) ≡ None }
{}

/// Deleting a key leaves the values of others.
pub fn delete_leaves_others()
    ensures { (key other : List ℕ) (pool : Pairs) → IsMap pool → other ≢ key
        → value_in other (without key pool) ≡ value_in other pool }
{}

/// The pair at a place has as many keys before its own as the place says.
pub fn place_is_rank()
    ensures { (pool : Pairs) (i : ℕ) (pair : List ℕ × List ℕ) → IsMap pool → slice_get pool i ≡ Some pair
        → count_by (λ p. is_lt (key_order p.0 pair.0)) pool ≡ i }
{}
