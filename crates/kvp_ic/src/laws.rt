//! Laws of the device, whose functions do nothing, and what encoding and decoding are to each other.

ghost use Rattle.std.specs.Prelude.{◌≡◌, ◌≢◌, ◌<◌, ◌≤◌, ℕ, List, Ok, None, slice_get};
ghost use Rattle.kvp_pool.specs.Pools.{Pairs};
ghost use Rattle.kvp_ic.specs.declared.message.Kvp.{Kvp as Message};
ghost use Rattle.kvp_ic.specs.Machine.{new_pools, pool_of, pools_reply, pools_after};
ghost use Rattle.kvp_ic.specs.Runs.{after_all, calls, stored, last_told};

use crate::{Kvp, KvpFault, decode, encode};

/// A request leaves each pool but the one that it asks.
pub fn other_pools_stay()
    ensures { (pools : List Pairs) (q : Message) (i : ℕ) → i ≢ pool_of q
        → slice_get (pools_after pools q) i ≡ slice_get pools i }
{}

/// A request that is refused leaves all pools.
pub fn refused_leaves_all()
    ensures { (pools : List Pairs) (q : Message) → (pools_reply pools q).status ≢ 0
        → pools_after pools q ≡ pools }
{}

/// After any list of requests a key has the value that it was set to last, if no delete took it away since, as their replies say.
pub fn last_value_stays()
    ensures { (qs : List Message) (i : ℕ) (key : List ℕ) → i < 5
        → stored (after_all new_pools qs) i key ≡ last_told i key None (calls new_pools qs) }
{}

/// A request of one of the five pools that is encoded and decoded is the request again.
pub fn encode_and_decode(m: &Kvp) -> Result<Kvp, KvpFault>
    requires { pool_of m.now ≤ 4 }
    ensures { result ≡ Ok m.now }
{
    let mut out = [0; 2608];
    let len = encode(m, &mut out);
    decode(&out[..len])
}
