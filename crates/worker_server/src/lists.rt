//! The lists of a worker that serves.
ghost use Rattle.std.specs.Prelude.{◌≡◌, ◌≤◌, [], replicate, vec_len, vec_capacity, IfOk, None};

use crate::owed::Owed;
use std::alloc::{AllocError, Global};
use txn_table::TxnTable;

// How many messages of its own an end has open at most.
pub(crate) const OWN: u32 = 64;

/// The messages of its own that are open or owed, those that are rescinded at the end, what is owed, and the serials of the calls: each with all its memory.
#[derive(Drop)]
pub(crate) struct Lists {
    pub table: TxnTable<u32>,
    pub rescinded: Vec<u32>,
    pub owed: Owed,
    pub serials: Vec<u32>,
}

impl Lists {
    /// Empty lists, for so many calls.
    pub fn make(alloc: Global, calls: u32) -> Result<Lists, AllocError>
        ensures table { IfOk result (λ l. l.table ≡ replicate 64 None) }
        ensures rescinded { IfOk result (λ l. (vec_len l.rescinded ≡ 0) × (64 ≤ vec_capacity l.rescinded)) }
        ensures owed { IfOk result (λ l. l.owed ≡ []) }
        ensures none { IfOk result (λ l. l.serials.items ≡ []) }
        ensures serials { IfOk result (λ l. (vec_len l.serials ≡ 0) × (calls ≤ vec_capacity l.serials)) }
    {
        let serials = Vec::with_capacity(alloc, calls as usize)?;
        let owed = Owed::make(alloc)?;
        let table = TxnTable::make(alloc, OWN)?;
        let rescinded = Vec::with_capacity(alloc, OWN as usize)?;
        Ok(Lists {
            table,
            rescinded,
            owed,
            serials,
        })
    }
}
