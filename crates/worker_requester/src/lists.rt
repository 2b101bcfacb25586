//! The lists of a worker that asks.
ghost use Rattle.std.specs.Prelude.{◌≡◌, ◌≤◌, [], replicate, vec_len, vec_capacity, IfOk, None};

use std::alloc::{AllocError, Global};
use txn_table::TxnTable;
use worker_port::PacketBuffer;

/// The open requests, the replies, those that are rescinded at the end, and the buffer in which a packet is written: each with all its memory.
#[derive(Drop)]
pub(crate) struct Lists<R> {
    pub table: TxnTable<u32>,
    pub replies: Vec<R>,
    pub rescinded: Vec<u32>,
    pub buffer: PacketBuffer,
}

impl<R: Drop> Lists<R> {
    /// Empty lists for so many replies, and as many open requests as the window has.
    pub fn make(alloc: Global, replies: u32, window: u32) -> Result<Lists<R>, AllocError>
        requires { (1 ≤ window) × (window ≤ 64) }
        ensures table { IfOk result (λ l. l.table ≡ replicate window None) }
        ensures none { IfOk result (λ l. l.replies.items ≡ []) }
        ensures replies { IfOk result (λ l. (vec_len l.replies ≡ 0) × (replies ≤ vec_capacity l.replies)) }
        ensures rescinded { IfOk result (λ l. (vec_len l.rescinded ≡ 0) × (64 ≤ vec_capacity l.rescinded)) }
    {
        let table = TxnTable::make(alloc, window)?;
        let replies = Vec::with_capacity(alloc, replies as usize)?;
        let rescinded = Vec::with_capacity(alloc, 64)?;
        let buffer = PacketBuffer::make(alloc)?;
        Ok(Lists {
            table,
            replies,
            rescinded,
            buffer,
        })
    }
}
