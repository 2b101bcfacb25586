//! The table of open requests.
ghost use Rattle.std.specs.Prelude.{◌≡◌, ◌+◌, ◌-◌, ◌≤◌, ◌++◌, length, replicate, slice_set, count_by, is_some, vec_len, vec_capacity, IfOk, IfErr, MatchResult, All, IsSome, Some, None};
ghost use Rattle.txn_table.specs.Open.{request_of, requests};

use crate::free::{first_free, free_places};
use crate::{TableFull, UnknownTid};
use slab::Slab;
use std::alloc::{AllocError, Global};
use std::marker::Model;

/// Requests under ids from 1 on: a finite map, as what each id has in order.
///
/// The requests stand in a slab, and a row keeps which id has which key. Only `make` takes memory.
/// As the transaction ids of a VMBus packet, which Linux's `vmbus_next_request_id`
/// (drivers/hv/channel.c) gives out.
#[derive(Drop)]
pub struct TxnTable<R> {
    requests: Slab<R>,
    keys: Vec<Option<usize>>,
}

impl<R> Model for TxnTable<R> {
    ghost use Rattle.std.specs.Prelude.{List, Option};
    ghost use Rattle.std.specs.Coded.{coded_list, coded_option};

    ghost Value = { List (Option R) };

    ghost coded = { coded_list (coded_option R.code) };

    ghost use Rattle.txn_table.specs.Keys.{requests_at, IsKept};

    ghost view = { λ t. requests_at t.requests t.keys.items };

    ghost invariant = { λ t. IsKept t.requests t.keys.items };
}

impl<R: Drop> TxnTable<R> {
    /// A table of `size` ids, 1 to 64, with no request.
    pub fn make(alloc: Global, size: u32) -> Result<TxnTable<R>, AllocError>
        requires { (1 ≤ size) × (size ≤ 64) }
        ensures { IfOk result (λ t. t ≡ replicate size None) }
    {
        let requests = Slab::with_capacity(alloc, size as usize)?;
        let keys = free_places(alloc, size as usize)?;
        Ok(TxnTable { requests, keys })
    }

    /// How many requests are open.
    pub fn count(&self) -> u32
        ensures { result ≡ count_by is_some self.now }
    {
        self.requests.len() as u32
    }

    /// Opens a request under an id that was free, 1 to the table's size.
    ///
    /// It refuses exactly where each id has a request, and then nothing is changed.
    pub fn accept(&mut self, req: R) -> Result<u64, TableFull<R>>
        ensures accepted { IfOk result (λ id. (1 ≤ id) × (id ≤ length self.old) × (request_of self.old id ≡ None) × (self.new ≡ slice_set self.old (id - 1) (Some req))) }
        ensures full { IfErr result (λ e. All IsSome self.old × (self.new ≡ self.old) × (e.size ≡ length self.old) × (e.req ≡ req)) }
    {
        let Some(place) = first_free(&self.keys) else {
            return Err(TableFull {
                size: self.keys.len() as u32,
                req,
            });
        };
        let key = self.requests.insert_reserved(req);
        self.keys[place] = Some(key);
        Ok(place as u64 + 1)
    }

    /// Closes the request of an id, and gives it.
    ///
    /// It refuses exactly where no request is open under the id, and then nothing is changed.
    pub fn complete(&mut self, tid: u64) -> Result<R, UnknownTid>
        ensures { MatchResult result
            (λ req. (request_of self.old tid ≡ Some req) × (self.new ≡ slice_set self.old (tid - 1) None))
            (λ e. (request_of self.old tid ≡ None) × (self.new ≡ self.old) × (e.tid ≡ tid)) }
    {
        if tid == 0 || tid > self.keys.len() as u64 {
            return Err(UnknownTid { tid });
        }
        let place = (tid - 1) as usize;
        let Some(key) = self.keys[place] else {
            return Err(UnknownTid { tid });
        };
        self.keys[place] = None;
        Ok(self.requests.remove(key))
    }

    /// Closes all requests, and moves them out by rising id.
    pub fn rescind_all(&mut self, out: &mut Vec<R>)
        requires { vec_len out.old + count_by is_some self.old ≤ vec_capacity out.old }
        ensures moved { out.new.items ≡ out.old.items ++ requests self.old }
        ensures none_left { self.new ≡ replicate (length self.old) None }
        ensures room { vec_capacity out.new ≡ vec_capacity out.old }
    {
        for place in 0..self.size() {
            if let Ok(req) = self.complete(place as u64 + 1) {
                out.push_reserved(req);
            }
        }
    }

    /// How many ids there are.
    pub(crate) fn size(&self) -> usize
        ensures value { result ≡ length self.now }
        ensures most { result ≤ 64 }
    {
        self.keys.len()
    }
}
