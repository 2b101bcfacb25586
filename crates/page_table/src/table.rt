//! The pages of one end.
ghost use Rattle.std.specs.Prelude.{◌≡◌, ◌≢◌, ℕ, ◌+◌, ◌*◌, ◌++◌, ◌∷◌, ◌/◌, ◌<◌, ◌≤◌, true, false, length, replicate, slice_get, slice_index_or, slice_set, List, Option, Some, None, IfOk, OnOk, IfSome, IsTrue, ◌↔◌, MatchOption, []};
ghost use Rattle.std.specs.List.{splice};
ghost use Rattle.page_kept.specs.Items.{values};
ghost use Rattle.page_kept.specs.declared.kept.Kept.{Kept};
ghost use Rattle.page_kept.specs.Kept.{pages_sent, pages_took, is_held, is_lent};
ghost use Rattle.page_kept.specs.Keepers.{CanStore};
ghost use Rattle.page_kept.specs.Layouts.{layout, Loan as Lending};
ghost use Rattle.page_kept.specs.declared.owner.Owner.TheVariants.{Has, Lent, Held, Away};
ghost use Rattle.pkt_desc.specs.Packets.{IsPacket, kind_of, id_of};
ghost use Rattle.page_table.specs.Ids.{AreCounted, balance_of};
ghost use Rattle.page_table.specs.Table.{Fits, KeepsPages, word_of, is_had, owned_in, named_in, first_owners, sent_by, took_by, loan_of, GoesBack, Lends, Holds, IsPart, IsHeldPart, loans, part_in};

use crate::ids::{Ids, count};
use crate::loan::Loan;
use crate::owners::{
    at_first, can_store, first_held, first_lent, had, may_be_held, owned, words_in,
};
use io_edge::Side;
use page_kept::Owner;
use pkt_desc::lent;
use std::alloc::{AllocError, Global};
use std::marker::Model;

/// The words of a page.
const WORDS: usize = 512;

/// The type of a completion. Source: Linux `include/linux/hyperv.h`, `VM_PKT_COMP`.
pub const COMPLETION: u64 = 11;

/// What an end has to do with each page of its channel, its copy of their words, 512 a page, and which requests of each id are open, both ways: those that it sent,
/// and those that it took.
#[derive(Drop)]
pub struct PageTable {
    owners: Vec<Owner>,
    copy: Vec<u64>,
    sent: Ids,
    took: Ids,
}

impl Model for PageTable {
    ghost use Rattle.std.specs.Prelude.{min};
    ghost use Rattle.page_table.specs.Table.{Table, IsTable};

    ghost Value = { Table };

    ghost view = { λ t. record { owners = t.owners.items; copy = t.copy.items; counts = record { sent = t.sent.entries; took = t.took.entries; room = min t.sent.room t.took.room } } };

    ghost invariant = { λ t. IsTable t.owners.items t.copy.items };
}

impl PageTable {
    /// The pages of a new end of this side: it has those whose home it is. All words are 0.
    pub fn make(alloc: Global, side: Side, pages: u32) -> Result<PageTable, AllocError>
        requires pages { pages ≤ 128 }
        ensures pages { IfOk result (λ t. (t.owners ≡ first_owners side pages) × (t.copy ≡ replicate (512 * pages) 0)) }
        ensures counts { IfOk result (λ t. (t.counts.sent ≡ []) × (t.counts.took ≡ [])) }
    {
        let mut owners = Vec::new(alloc);
        for page in 0..pages {
            owners.push(at_first(side, page))?;
        }
        let copy = Vec::from_elem(alloc, 0, WORDS * pages as usize)?;
        Ok(PageTable {
            owners,
            copy,
            sent: Ids::new(alloc),
            took: Ids::new(alloc),
        })
    }

    /// For so many packets that are sent or taken there is room to count them by their ids, whatever these are.
    pub fn room(&self) -> u64
        ensures { result ≡ self.now.counts.room }
    {
        self.sent.room().min(self.took.room())
    }

    /// Makes room to count so many more packets, whatever their ids are. Room never shrinks, and only ids that are open take any.
    pub fn reserve(&mut self, packets: u64) -> Result<(), AllocError>
        ensures same { (self.new.owners ≡ self.old.owners) × (self.new.copy ≡ self.old.copy) × (self.new.counts.sent ≡ self.old.counts.sent) × (self.new.counts.took ≡ self.old.counts.took) }
        ensures room { OnOk result (packets ≤ self.new.counts.room) }
        ensures kept { self.old.counts.room ≤ self.new.counts.room }
    {
        self.sent.reserve(packets)?;
        self.took.reserve(packets)
    }

    /// Whether a packet may be sent, as far as its pages and its id go: the end has the page that a request names, and all earlier requests of its id are
    /// completed; a completion answers a request that was taken and isn't completed.
    pub fn may_send(&self, packet: &[u64]) -> bool
        requires packet { IsPacket packet.now }
        ensures answers { kind_of packet.now ≡ 11 → (IsTrue result ↔ (0 < (balance_of self.now.counts.took (id_of packet.now)).unanswered)) }
        ensures asks { kind_of packet.now ≢ 11 → (IsTrue result ↔ ((a : Lending) → named_in self.now.owners packet.now ≡ Some a → (slice_index_or self.now.owners a.page Away ≡ Has) × ((balance_of self.now.counts.sent (id_of packet.now)).unanswered ≡ 0))) }
    {
        let tid = packet[1];
        if packet[0] % 65536 == COMPLETION {
            return self.took.at(tid).unanswered != 0;
        }
        match self.has_named(packet) {
            Some(had) => had && self.sent.at(tid).unanswered == 0,
            None => true,
        }
    }

    /// How many pages there are.
    pub fn count(&self) -> u32
        ensures { result ≡ length self.now.owners }
    {
        self.owners.len() as u32
    }

    /// Whether the end has this page, or holds it. Of a page that the channel hasn't, neither.
    pub fn owns(&self, page: u32) -> bool
        ensures { result ≡ owned_in self.now.owners page }
    {
        match self.owners.get(page as usize) {
            Some(owner) => owned(*owner),
            None => false,
        }
    }

    /// Whether a word of a page may be stored to: the end has the page, or holds it, and the word is lent.
    pub fn can_store(&self, page: u32, word: u32) -> bool
        ensures can { IsTrue result → (page < length self.now.owners) × (word < 512) × CanStore (slice_index_or self.now.owners page Away) word }
        ensures whole { page < length self.now.owners → word < 512 → CanStore (slice_index_or self.now.owners page Away) word → IsTrue result }
    {
        match self.owners.get(page as usize) {
            Some(owner) => (word as usize) < WORDS && can_store(*owner, word),
            None => false,
        }
    }

    /// Whether the end has the page that a packet names, or none where it names no page of the channel. Whatever is lent or held is 1 to 512 words.
    pub fn has_named(&self, packet: &[u64]) -> Option<bool>
        requires packet { IsPacket packet.now }
        ensures has { MatchOption result (named_in self.now.owners packet.now ≡ None) (λ has. (a : Lending) × (named_in self.now.owners packet.now ≡ Some a) × (has ≡ is_had (slice_index_or self.now.owners a.page Away))) }
        ensures fit { (q : ℕ) → Fits (slice_index_or self.now.owners q Away) }
    {
        let owners = self.owners.as_slice();
        let loan = self.named(packet)?;
        Some(had(owners[loan.page as usize]))
    }

    /// Whatever is lent or held is 1 to 512 words, and the copy has 512 for each page. The call does nothing: its contract is a law.
    pub fn lends_in_bounds(&self)
        ensures fit { (q : ℕ) → Fits (slice_index_or self.now.owners q Away) }
        ensures copied { length self.now.copy ≡ 512 * length self.now.owners }
    {
        // For the proof: what a value keeps is known where the value is read.
        let _owners = self.owners.as_slice();
    }

    /// The first words of a page, as this end knows them.
    pub fn words(&self, loan: Loan) -> &[u64]
        requires page { loan.page < length self.now.owners }
        requires words { loan.words ≤ 512 }
        ensures { result.now ≡ values loan.words (word_of self.now.copy loan.page) }
    {
        let from = WORDS * loan.page as usize;
        &self.copy[from..from + loan.words as usize]
    }

    /// A word of a page becomes this one.
    pub fn set_word(&mut self, page: u32, word: u32, value: u64)
        requires page { page < length self.old.owners }
        requires word { word < 512 }
        ensures { self.new ≡ record self.old { copy = slice_set self.old.copy (512 * page + word) value } }
    {
        self.copy[WORDS * page as usize + word as usize] = value;
    }

    /// The first words of a page become these.
    pub fn set_words(&mut self, page: u32, words: &[u64])
        requires page { page < length self.old.owners }
        requires words { length words.now ≤ 512 }
        ensures { self.new ≡ record self.old { copy = splice self.old.copy (512 * page) (512 * page + length words.now) words.now } }
    {
        let from = WORDS * page as usize;
        self.copy[from..from + words.len()].copy_from_slice(words);
    }

    /// The part of a page that goes along with a packet, if that is sent now: the page that is held under a completion's id, and what any other packet names.
    /// Nothing changes.
    pub fn part_of(&self, packet: &[u64]) -> Option<Loan>
        requires packet { IsPacket packet.now }
        ensures part { loans result ≡ part_in self.now.owners packet.now }
        ensures loan { IfSome result (λ a. IsPart self.now.owners a) }
        ensures held { kind_of packet.now ≡ 11 → IfSome result (λ a. slice_index_or self.now.owners a.page Away ≡ Held (id_of packet.now) a.words) }
    {
        if packet[0] % 65536 == COMPLETION {
            self.held_under(packet[1])
        } else {
            self.named(packet)
        }
    }

    /// A packet was sent. A completion gives back the page that is held under its id, and any other packet lends what it names: the words that go along.
    pub fn sent(&mut self, packet: &[u64]) -> Option<Loan>
        requires packet { IsPacket packet.now }
        requires room { 0 < self.old.counts.room }
        ensures sends { (k : Kept) → KeepsPages k self.old → pages_sent (layout k.count) k packet.now ≡ sent_by k packet.now self.new.owners result }
        ensures counts { (xs ys : List (List ℕ)) → AreCounted self.old.counts xs ys → AreCounted self.new.counts (xs ++ packet.now ∷ []) ys }
        ensures room { self.old.counts.room ≤ self.new.counts.room + 1 }
        ensures loan { IfSome result (λ a. IsPart self.new.owners a) }
        ensures size { length self.new.owners ≡ length self.old.owners }
        ensures copy { self.new.copy ≡ self.old.copy }
    {
        count(&mut self.sent, &mut self.took, packet);
        let tid = packet[1];
        if packet[0] % 65536 == COMPLETION {
            self.give_back(tid)
        } else {
            self.lend(packet, tid)
        }
    }

    /// A packet was taken. A completion brings back the page that is lent under its id, and any other packet lends what it names, where this end may hold
    /// that: the words that are to be loaded.
    pub fn took(&mut self, packet: &[u64]) -> Option<Loan>
        requires packet { IsPacket packet.now }
        requires room { 0 < self.old.counts.room }
        ensures takes { (k : Kept) → KeepsPages k self.old → pages_took (layout k.count) k packet.now ≡ took_by k packet.now self.new.owners result }
        ensures counts { (xs ys : List (List ℕ)) → AreCounted self.old.counts xs ys → AreCounted self.new.counts xs (ys ++ packet.now ∷ []) }
        ensures room { self.old.counts.room ≤ self.new.counts.room + 1 }
        ensures loan { IfSome result (λ a. IsPart self.new.owners a) }
        ensures size { length self.new.owners ≡ length self.old.owners }
        ensures copy { self.new.copy ≡ self.old.copy }
    {
        count(&mut self.took, &mut self.sent, packet);
        let tid = packet[1];
        if packet[0] % 65536 == COMPLETION {
            self.bring_back(tid)
        } else {
            self.hold(packet, tid)
        }
    }
}

impl PageTable {
    // The page that a packet names, where the channel has it, and how many of its words.
    fn named(&self, packet: &[u64]) -> Option<Loan>
        requires packet { IsPacket packet.now }
        ensures named { MatchOption result (named_in self.now.owners packet.now ≡ None) (λ a. named_in self.now.owners packet.now ≡ Some (loan_of a)) }
        ensures loan { IfSome result (λ a. IsPart self.now.owners a) }
    {
        let named = lent(packet)?;
        if named.page as usize >= self.owners.len() {
            return None;
        }
        Some(Loan {
            page: named.page,
            words: (named.bytes + 7) / 8,
        })
    }

    // The page that is held under this id.
    fn held_under(&self, tid: u64) -> Option<Loan>
        ensures held { IsHeldPart tid self.now.owners result }
        ensures loan { IfSome result (λ a. IsPart self.now.owners a) }
        ensures owner { IfSome result (λ a. slice_index_or self.now.owners a.page Away ≡ Held tid a.words) }
    {
        let Some(page) = first_held(self.owners.as_slice(), tid) else {
            return None;
        };
        Some(Loan {
            page: page as u32,
            words: words_in(self.owners[page]),
        })
    }

    // The page that is held under this id goes back.
    #[tactic(auto, using(crate::proofs::Moves::found_held))]
    fn give_back(&mut self, tid: u64) -> Option<Loan>
        ensures gives { GoesBack (λ o. is_held tid o) Away self.old.owners self.new.owners result }
        ensures loan { IfSome result (λ a. IsPart self.new.owners a) }
        ensures kept { (self.new.copy ≡ self.old.copy) × (self.new.counts ≡ self.old.counts) }
    {
        let Some(page) = first_held(self.owners.as_slice(), tid) else {
            return None;
        };
        let words = words_in(self.owners[page]);
        self.owners[page] = Owner::Away;
        Some(Loan {
            page: page as u32,
            words,
        })
    }

    // The page that a packet names is lent.
    fn lend(&mut self, packet: &[u64], tid: u64) -> Option<Loan>
        requires packet { IsPacket packet.now }
        ensures lends { Lends tid packet.now self.old.owners self.new.owners result }
        ensures loan { IfSome result (λ a. IsPart self.new.owners a) }
        ensures kept { (self.new.copy ≡ self.old.copy) × (self.new.counts ≡ self.old.counts) }
    {
        let loan = self.named(packet)?;
        self.owners[loan.page as usize] = Owner::Lent {
            tid,
            words: loan.words,
        };
        Some(loan)
    }

    // The page that is lent under this id comes back.
    #[tactic(auto, using(crate::proofs::Moves::found_lent))]
    fn bring_back(&mut self, tid: u64) -> Option<Loan>
        ensures brings { GoesBack (λ o. is_lent tid o) Has self.old.owners self.new.owners result }
        ensures loan { IfSome result (λ a. IsPart self.new.owners a) }
        ensures kept { (self.new.copy ≡ self.old.copy) × (self.new.counts ≡ self.old.counts) }
    {
        let Some(page) = first_lent(self.owners.as_slice(), tid) else {
            return None;
        };
        let words = words_in(self.owners[page]);
        self.owners[page] = Owner::Has;
        Some(Loan {
            page: page as u32,
            words,
        })
    }

    // The page that a packet names is held, where it may be.
    fn hold(&mut self, packet: &[u64], tid: u64) -> Option<Loan>
        requires packet { IsPacket packet.now }
        ensures holds { Holds tid packet.now self.old.owners self.new.owners result }
        ensures loan { IfSome result (λ a. IsPart self.new.owners a) }
        ensures kept { (self.new.copy ≡ self.old.copy) × (self.new.counts ≡ self.old.counts) }
    {
        let loan = self.named(packet)?;
        let page = loan.page as usize;
        if !may_be_held(self.owners[page], tid) {
            return None;
        }
        self.owners[page] = Owner::Held {
            tid,
            words: loan.words,
        };
        Some(loan)
    }
}
