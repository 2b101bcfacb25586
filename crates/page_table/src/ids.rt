//! How many requests of each id are open, one way.
ghost use Rattle.std.specs.Prelude.{◌≡◌, ◌≢◌, ℕ, ◌+◌, ◌==◌, ◌<◌, ◌≤◌, ◌^◌, nat_eq, cond, [], ◌∷◌, ◌++◌, List, None, OnOk};
ghost use Rattle.std.specs.Map.{lookup};
ghost use Rattle.indexmap.specs.IndexMap.{spare};
ghost use Rattle.page_kept.specs.Counts.{bit};
ghost use Rattle.pkt_desc.specs.Packets.{IsPacket};
ghost use Rattle.page_table.specs.Ids.{IsBalance, IsCounted, balance_of, entries_with, free_beside, is_even};

use crate::balance::Balance;
use crate::table::COMPLETION;
use crate::touched::Touched;
use indexmap::IndexMap;
use std::alloc::{AllocError, Global};
use std::marker::Model;

// How many places of the map the id that was touched last may yet take.
fn owed(last: Touched) -> u64
    ensures { result ≡ cond (is_even last.balance) 0 1 }
{
    u64::from(!last.balance.is_even())
}

// The requests of an id against their completions.
fn find(balances: &IndexMap<u64, Balance>, last: Touched, tid: u64) -> Balance
    requires { lookup (nat_eq last.tid) balances.now.entries ≡ None }
    ensures { result ≡ balance_of (entries_with balances.now.entries last) tid }
{
    if last.tid == tid {
        return last.balance;
    }
    if balances.is_empty() {
        return Balance::even();
    }
    match balances.get(&tid) {
        Some(balance) => *balance,
        None => Balance::even(),
    }
}

// What the map has of an id goes out of it.
fn take_out(balances: &mut IndexMap<u64, Balance>, tid: u64) -> Balance
    ensures balance { result ≡ balance_of balances.old.entries tid }
    ensures gone { lookup (nat_eq tid) balances.new.entries ≡ None }
    ensures others { (t : ℕ) → t ≢ tid → balance_of balances.new.entries t ≡ balance_of balances.old.entries t }
    ensures room { spare balances.old ≤ spare balances.new }
{
    if balances.is_empty() {
        return Balance::even();
    }
    match balances.swap_remove(&tid) {
        Some(balance) => balance,
        None => Balance::even(),
    }
}

// This id becomes the one that was touched last: what the map has of it comes out, and the id that was it goes in, if it isn't even. Whatever balance it
// gets next is then its balance among all of them.
#[inline]
fn touch(balances: &mut IndexMap<u64, Balance>, last: Touched, tid: u64) -> Touched
    requires apart { lookup (nat_eq last.tid) balances.old.entries ≡ None }
    requires room { 0 < free_beside (spare balances.old) last.balance }
    ensures id { result.tid ≡ tid }
    ensures apart { lookup (nat_eq tid) balances.new.entries ≡ None }
    ensures balance { result.balance ≡ balance_of (entries_with balances.old.entries last) tid }
    ensures put { (b : Balance) → (t : ℕ) → balance_of (entries_with balances.new.entries (record { tid = tid; balance = b })) t ≡ cond (tid == t) b (balance_of (entries_with balances.old.entries last) t) }
    ensures room { free_beside (spare balances.old) last.balance ≤ spare balances.new }
{
    if last.tid == tid {
        return last;
    }
    let balance = take_out(balances, tid);
    if !last.balance.is_even() {
        let Ok(_) = balances.insert(last.tid, last.balance) else {
            unreachable!()
        };
    }
    Touched { tid, balance }
}

/// The requests that went one way, against the completions that came the other way, by id. An id that has as many of both takes no place, so the memory is that of
/// the ids that are open, however many packets went. The id that was touched last stands beside the map, and goes into it when another one comes: a request that is
/// completed before the next one, under whatever ids, is counted without a look-up. The packets are counted up to 2^64 - 1.
#[derive(Drop)]
pub(crate) struct Ids {
    balances: IndexMap<u64, Balance>,
    last: Touched,
    left: u64,
}

impl Model for Ids {
    ghost use Rattle.std.specs.Prelude.{min};
    ghost use Rattle.indexmap.specs.IndexMap.{spare};
    ghost use Rattle.page_table.specs.Ids.{Counted, IsKept, entries_with, free_beside};

    ghost Value = { Counted };

    ghost view = { λ i. record { entries = entries_with i.balances.entries i.last; room = min (free_beside (spare i.balances) i.last.balance) i.left } };

    ghost invariant = { λ i. IsKept i.balances.entries (spare i.balances) i.last i.left };
}

impl Ids {
    /// No packet went yet.
    pub(crate) fn new(alloc: Global) -> Ids
        ensures { result.entries ≡ [] }
    {
        Ids {
            balances: IndexMap::new(alloc),
            last: Touched {
                tid: 0,
                balance: Balance::even(),
            },
            left: u64::MAX,
        }
    }

    /// So many packets have room that it suffices whatever their ids are.
    pub(crate) fn room(&self) -> u64
        ensures { result ≡ self.now.room }
    {
        let spare = self.balances.capacity() - self.balances.len();
        self.left.min(spare as u64 - owed(self.last))
    }

    /// Makes room for so many more packets, whatever their ids are. Room never shrinks.
    pub(crate) fn reserve(&mut self, packets: u64) -> Result<(), AllocError>
        ensures entries { self.new.entries ≡ self.old.entries }
        ensures room { OnOk result (packets ≤ self.new.room) }
        ensures kept { self.old.room ≤ self.new.room }
    {
        if packets > self.left {
            return Err(AllocError);
        }
        let Some(places) = packets.checked_add(owed(self.last)) else {
            return Err(AllocError);
        };
        self.balances.reserve(places as usize)
    }

    /// The requests of an id against their completions.
    pub(crate) fn at(&self, tid: u64) -> Balance
        ensures balance { result ≡ balance_of self.now.entries tid }
        ensures small { (result.unanswered + self.now.room < 2 ^ 64) × (result.unasked + self.now.room < 2 ^ 64) }
    {
        find(&self.balances, self.last, tid)
    }

    // A request with this id went.
    fn ask(&mut self, tid: u64)
        requires room { 0 < self.old.room }
        ensures balances { (t asks dones : ℕ) → IsBalance asks dones (balance_of self.old.entries t) → IsBalance (asks + bit (tid == t)) dones (balance_of self.new.entries t) }
        ensures room { self.old.room ≤ self.new.room + 1 }
    {
        self.last = touch(&mut self.balances, self.last, tid);
        self.left -= 1;
        self.last.balance = self.last.balance.asked();
    }

    // A completion with this id came.
    fn answer(&mut self, tid: u64)
        requires room { 0 < self.old.room }
        ensures balances { (t asks dones : ℕ) → IsBalance asks dones (balance_of self.old.entries t) → IsBalance asks (dones + bit (tid == t)) (balance_of self.new.entries t) }
        ensures room { self.old.room ≤ self.new.room + 1 }
    {
        self.last = touch(&mut self.balances, self.last, tid);
        self.left -= 1;
        self.last.balance = self.last.balance.answered();
    }
}

/// Counts a packet: a completion answers a request that came the other way, and any other packet asks this way.
pub(crate) fn count(ways: &mut Ids, back: &mut Ids, packet: &[u64])
    requires packet { IsPacket packet.now }
    requires room { (0 < ways.old.room) × (0 < back.old.room) }
    ensures ways { (xs ys : List (List ℕ)) → IsCounted ways.old.entries xs ys → IsCounted ways.new.entries (xs ++ packet.now ∷ []) ys }
    ensures back { (xs ys : List (List ℕ)) → IsCounted back.old.entries ys xs → IsCounted back.new.entries ys (xs ++ packet.now ∷ []) }
    ensures room { (ways.old.room ≤ ways.new.room + 1) × (back.old.room ≤ back.new.room + 1) }
{
    let tid = packet[1];
    if packet[0] % 65536 == COMPLETION {
        back.answer(tid);
    } else {
        ways.ask(tid);
    }
}
