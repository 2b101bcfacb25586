//! A pool of pairs.
ghost use Rattle.std.specs.Prelude.{◌≡◌, true, false, length, slice_get, is_some, option_copied, IfOk, MatchResult, []};
ghost use Rattle.kvp_pool.specs.Pools.{IsMap, value_in, with_pair, without, can_set};

use crate::search::find;
use crate::{Key, PoolFull, Val};
use slab::Slab;
use std::alloc::{AllocError, Global};
use std::marker::Model;

/// How many pairs a pool has at most.
const MOST: usize = 256;

/// At most 256 pairs of a key and its value: a finite map, as the pairs in order of their keys.
///
/// The pairs stay where they are: `order` has their places, by rising key. Only `make` takes memory.
/// (Linux 6.12, `drivers/hv/hv_kvp.c`; the limits are this program's.)
#[derive(Drop)]
pub struct Pool {
    pairs: Slab<(Key, Val)>,
    order: Vec<usize>,
}

impl Model for Pool {
    ghost use Rattle.std.specs.Prelude.{List, ℕ, vec_capacity};
    ghost use Rattle.kvp_pool.specs.Kept.{pairs_at, IsKept};

    ghost Value = { List (List ℕ × List ℕ) };

    ghost view = { λ p. pairs_at p.pairs p.order.items };

    ghost invariant = { λ p. IsKept p.pairs p.order.items (vec_capacity p.order) };
}

impl Pool {
    /// A pool with no pair, and with room for 256.
    pub fn make(alloc: Global) -> Result<Pool, AllocError>
        ensures { IfOk result (λ p. p ≡ []) }
    {
        let pairs = Slab::with_capacity(alloc, MOST)?;
        let order = Vec::with_capacity(alloc, MOST)?;
        Ok(Pool { pairs, order })
    }

    /// How many pairs there are.
    pub fn len(&self) -> usize
        ensures value { result ≡ length self.now }
        ensures map { IsMap self.now }
    {
        self.order.len()
    }

    /// The value of a key.
    pub fn get(&self, key: &Key) -> Option<&Val>
        ensures { option_copied result ≡ value_in key.now self.now }
    {
        match find(&self.pairs, &self.order, key) {
            Ok(i) => Some(&self.pairs[self.order[i]].1),
            Err(_) => None,
        }
    }

    /// The pair that has so many others before it in the order of keys.
    pub fn nth(&self, index: usize) -> Option<&(Key, Val)>
        ensures { option_copied result ≡ slice_get self.now index }
    {
        match self.order.get(index) {
            Some(place) => self.pairs.get(*place),
            None => None,
        }
    }

    /// Gives a key this value, in place of the one that it has.
    ///
    /// It refuses exactly where the key is new and the pool has 256 pairs, and then nothing is changed.
    pub fn set(&mut self, key: &Key, value: &Val) -> Result<(), PoolFull>
        ensures { MatchResult result
            (λ _. (can_set key.now self.old ≡ true) × (self.new ≡ with_pair key.now value.now self.old))
            (λ _. (can_set key.now self.old ≡ false) × (self.new ≡ self.old)) }
    {
        match find(&self.pairs, &self.order, key) {
            Ok(i) => {
                let place = self.order[i];
                let pair = &mut self.pairs[place];
                pair.1 = value.again();
                Ok(())
            }
            Err(i) => {
                if self.order.len() >= MOST {
                    return Err(PoolFull);
                }
                let place = self.pairs.insert_reserved((key.again(), value.again()));
                let Ok(_) = self.order.insert(i, place) else {
                    unreachable!()
                };
                Ok(())
            }
        }
    }

    /// Takes a key out with its value, and says whether it was there.
    pub fn delete(&mut self, key: &Key) -> bool
        ensures was { result ≡ is_some (value_in key.now self.old) }
        ensures left { self.new ≡ without key.now self.old }
    {
        match find(&self.pairs, &self.order, key) {
            Ok(i) => {
                let place = self.order.remove(i);
                self.pairs.remove(place);
                true
            }
            Err(_) => false,
        }
    }
}
