//! A completion from the peer settles the request of its id, and no other.
ghost use Rattle.std.specs.Prelude.{◌≡◌, ◌-◌, IfSome, IfNone, None, slice_set};
ghost use Rattle.txn_table.specs.Open.{request_of};

use txn_table::TxnTable;

/// What was asked under an id that a peer names. An id that isn't open changes nothing.
pub fn settle(table: &mut TxnTable<u32>, tid: u64) -> Option<u32>
    ensures asked { result ≡ request_of table.old tid }
    ensures closed { IfSome result (λ _. table.new ≡ slice_set table.old (tid - 1) None) }
    ensures unknown { IfNone result (table.new ≡ table.old) }
{
    match table.complete(tid) {
        Ok(request) => Some(request),
        Err(_) => None,
    }
}
