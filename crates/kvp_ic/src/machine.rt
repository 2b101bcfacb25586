//! The key-value device of a guest, as a machine.

ghost use Rattle.std.specs.Prelude.{◌≡◌, ◌==◌, ◌<◌, ◌^◌, None, IfOk, option_copied, if◌then◌else◌};
ghost use Rattle.kvp_ic.specs.Machine.{new_pools, told, value_reply, pair_reply, pool_reply, pool_after, IsPart, IsReplyTo};

use crate::{Kvp, KvpReply};
use hist_lock::Machine;
use kvp_pool::{Key, Pool, Val};
use std::alloc::{AllocError, Global};
use std::marker::Model;

/// No such pair, or no pair at that place (ERROR_NO_MORE_ITEMS).
const MISSING: u32 = 0x8007_0103;

/// A new key, and no room for it (ERROR_DISK_FULL).
const FULL: u32 = 0x8007_0070;

/// No such pool (ERROR_INVALID_PARAMETER).
const NO_POOL: u32 = 0x8007_0057;

/// Five pools of at most 256 pairs each, 0 to 4. It has one setup (Linux 6.12, `drivers/hv/hv_kvp.c`, kvp_send_key; the statuses
/// are this program's).
#[derive(Drop)]
pub struct KvpMachine {
    pools: Vec<Pool>,
}

impl Model for KvpMachine {
    ghost use Rattle.std.specs.Prelude.{List, ℕ};

    ghost Value = { List (List (List ℕ × List ℕ)) };

    ghost view = { λ m. m.pools.items };
}

/// The reply that gives a value, where there is one.
fn give_value(found: Option<&Val>) -> KvpReply
    ensures reply { result ≡ value_reply (option_copied found.entry) }
    ensures fits { (result.key ≡ None) × IsPart (result.status == 0) 0 1023 result.value × (result.status < 2 ^ 32) }
{
    // Each arm returns by itself, so that no text is moved through the value of the `match`.
    match found {
        Some(value) => {
            return KvpReply {
                status: 0,
                key: None,
                value: Some(value.again()),
            };
        }
        None => {
            return KvpReply::of_status(MISSING);
        }
    }
}

/// The reply that gives a pair, where there is one.
fn give_pair(found: Option<&(Key, Val)>) -> KvpReply
    ensures reply { result ≡ pair_reply (option_copied found.entry) }
    ensures fits { IsPart (result.status == 0) 1 255 result.key × IsPart (result.status == 0) 0 1023 result.value × (result.status < 2 ^ 32) }
{
    match found {
        Some(pair) => {
            return KvpReply {
                status: 0,
                key: Some(pair.0.again()),
                value: Some(pair.1.again()),
            };
        }
        None => {
            return KvpReply::of_status(MISSING);
        }
    }
}

/// The reply that something was done, or else with this status.
fn done_or(done: bool, status: u32) -> KvpReply
    ensures reply { result ≡ (if done then told 0 else told status) }
    ensures fits { (result.key ≡ None) × (result.value ≡ None) × (result.status < 2 ^ 32) }
{
    KvpReply::of_status(if done { 0 } else { status })
}

/// Serves one request of a pool.
fn serve(pool: &mut Pool, request: &Kvp) -> KvpReply
    ensures reply { result ≡ pool_reply pool.old request.now }
    ensures fits { IsReplyTo request.now result }
    ensures after { pool.new ≡ pool_after pool.old request.now }
{
    match request {
        Kvp::Get { key, .. } => give_value(pool.get(key)),
        Kvp::Set { key, value, .. } => done_or(pool.set(key, value).is_ok(), FULL),
        Kvp::Delete { key, .. } => done_or(pool.delete(key), MISSING),
        Kvp::Enum { index, .. } => give_pair(pool.nth(*index as usize)),
    }
}

impl KvpMachine {
    /// Five pools with no pair, each with room for 256.
    pub fn make(alloc: Global) -> Result<KvpMachine, AllocError>
        ensures { IfOk result (λ m. m ≡ new_pools) }
    {
        let mut pools = Vec::with_capacity(alloc, 5)?;
        for _i in 0..5usize {
            pools.push(Pool::make(alloc)?)?;
        }
        Ok(KvpMachine { pools })
    }
}

impl Machine for KvpMachine {
    ghost use Rattle.std.specs.Prelude.{◌≡◌, refl};
    ghost use Rattle.kvp_ic.specs.Machine.{new_pools, pools_reply, pools_after, IsReplyTo};

    type Request = Kvp;

    type Reply = KvpReply;

    ghost first = { λ s. new_pools };

    ghost after = { pools_after };

    ghost reply_to = { pools_reply };

    ghost fits = { IsReplyTo };

    /// Serves one request. It takes no memory.
    fn apply(&mut self, request: &Kvp) -> KvpReply {
        let i = usize::from(request.pool());
        if i >= self.pools.len() {
            return KvpReply::of_status(NO_POOL);
        }
        serve(&mut self.pools[i], request)
    }

    fn copy(reply: &KvpReply) -> KvpReply {
        reply.again()
    }

    ghost keeps_setup = { λ s q. refl };
}
