//! One end of a channel with data pages that keeps no packet.
ghost use Rattle.std.specs.Prelude.{◌≡◌, ◌≢◌, ◌+◌, ◌/◌, ◌<◌, ◌≤◌, cond, true, false, not, [], length, Some, None, IfOk, OnErr, OnOk, IsTrue, ◌↔◌, take};
ghost use Rattle.ring_machine.specs.Endings.{Leaves, LeavesBy, refused, send_answer, take_refusal, commit_answer, is_asleep, peer_mark_answer, want_of, why_of, IsWant};
ghost use Rattle.ring_machine.specs.EndCalls.{Send, Take, Commit, Arm, Poll, Mark, PeerMark};
ghost use Rattle.ring_machine.specs.Places.{IsRingSize};
ghost use Rattle.ring_machine.specs.States.{IsPacket, Gets, MayLend, past_of, resting_with, sent_by};
ghost use Rattle.page_kept.specs.Items.{values};
ghost use Rattle.page_kept.specs.Kept.{pages_sent};
ghost use Rattle.page_kept.specs.Keepers.{MayStore};
ghost use Rattle.page_kept.specs.Layouts.{layout, Loan as Lending};
ghost use Rattle.page_kept.specs.Stepped.{page_stored};
ghost use Rattle.page_kept.specs.declared.due.Due.TheVariants.{Clear};
ghost use Rattle.page_kept.specs.declared.page_call.PageCall.TheVariants.{StoreWord};
ghost use Rattle.page_table.specs.Table.{loans, owned_in, part_in, word_of};
ghost use Rattle.page_table.specs.declared.loan.Loan.{Loan as Part};
ghost use Rattle.ring_core.specs.Laying.{RanStores, laid};
ghost use Rattle.ring_core.specs.PageRuns.{RanPages};
ghost use Rattle.ring_core.specs.Pages.{IsClear, along, first_kept, last_words, part_len, part_words};
ghost use Rattle.ring_machine.specs.Steps.{IsSound, call_by, is_busy_at, is_sent, is_took, machine_new, send_begun, take_begun, commit_begun, arm_begun, poll_begun, mark_begun, peer_mark_begun};
ghost use Rattle.ring_machine.specs.declared.last.Why.{Why as WhyOne};
ghost use Rattle.ring_machine.specs.declared.machine.Stage.TheVariants.{Idle, Stopped};
ghost use Rattle.ring_core.specs.declared.told.Told.{Told};
ghost use Rattle.ring_core.specs.Driven.{broken, IsAwakeEnd, MakesSteps, LoadsPart, StaysByPages, pages_by_send, pages_by_take, sent_by_answer, found_by_send, left_by_send, LacksRoom, got_by_answer, found_by_take, left_by_take};

use crate::driver::{ArmLoops, CommitLoops, PlainLoop, PollLoops, SendLoops, TakeLoops};
use crate::parts::{Parts, front};
use crate::seat::Seatlike;
use crate::solo_mem::SoloMem;
use channel_trace::Past;
use page_kept::Due;
use page_table::{Loan, PageTable};
use ring_machine::{Armed, EndCore, EndMachine, SendRefusal, Side, Signalled, TakeRefusal, Why};
use std::alloc::{AllocError, Global};
use std::marker::Model;
use std::mem;

/// One end of a channel with data pages. It has the memory of one packet and of a copy of the pages' words, and of the ids of requests that are open, whatever it sends
/// and gets. Contracts see its state, in which `sent` and `got` are the packets so far, `pages` has the page words that went along with each, and `broken` tells why it
/// makes no step any more; its seat; the words of the packet that its last take gave; and for how many packets more it can count the ids.
#[derive(Drop)]
pub struct LeanEnd<S: Seatlike> {
    parts: Parts<S>,
    taken: usize,
    ghost few: { taken ≤ length parts.buf.items },
}

impl<S: Seatlike> Model for LeanEnd<S> {
    ghost use Rattle.std.specs.Prelude.{◌≡◌, ◌≢◌, false, Some, take};
    ghost use Rattle.ring_core.specs.Driven.{Lean};
    ghost use Rattle.ring_core.specs.Listing.{standing};
    ghost use Rattle.ring_machine.specs.Steps.{is_busy_at};
    ghost use Rattle.ring_machine.specs.declared.machine.Stage.TheVariants.{Stopped};
    ghost use Rattle.ring_core.specs.declared.told.Told.{Told};

    ghost Value = { Lean S };

    ghost view = { λ e. record { driven = record { state = standing e.parts.core.machine e.parts.core.pages e.parts.past.events e.parts.lent.events e.parts.table; seat = e.parts.seat; taken = take e.taken e.parts.buf.items }; room = e.parts.table.counts.room } };

    ghost invariant = { λ e. record { rests : is_busy_at e.parts.core.machine.stage ≡ false; cells : S.cells e.parts.seat ≡ e.parts.core.machine.cells; told : (u : Told) → S.told e.parts.seat ≡ Some u → u.state ≡ standing e.parts.core.machine e.parts.core.pages e.parts.past.events e.parts.lent.events e.parts.table; pages : e.parts.core.pages.count ≢ 0 → S.pages e.parts.seat ≡ e.parts.core.pages.count; honest : (u : Told) → S.told e.parts.seat ≡ Some u → e.parts.core.machine.stage ≢ Stopped } };
}

impl<S: Seatlike> LeanEnd<S> {
    /// A new end of a channel whose rings have `d` bytes of data, and which has so many data pages, at most 128. It takes memory for one packet of `d / 8` words, and for
    /// a copy of the page words, and no call but `reserve` takes more.
    pub fn make(
        alloc: Global,
        side: Side,
        d: u32,
        seat: S,
        pages: u32,
    ) -> Result<LeanEnd<S>, AllocError>
    where
        S: Drop,
        requires size { IsRingSize d }
        requires most { pages ≤ 128 }
        requires seat { S.cells seat ≡ d / 8 }
        requires pages { pages ≢ 0 → S.pages seat ≡ pages }
        requires told { (u : Told) → S.told seat ≡ Some u → u.state ≡ resting_with (machine_new side (d / 8)) [] [] [] (first_kept side pages) }
        ensures { IfOk result (λ e. (e.driven.state ≡ resting_with (machine_new side (d / 8)) [] [] [] (first_kept side pages)) × (e.driven.seat ≡ seat) × (e.driven.taken ≡ [])) }
    {
        let core = EndCore::make(side, d, pages);
        let buf = Vec::from_elem(alloc, 0, core.machine.cells as usize)?;
        let table = PageTable::make(alloc, side, pages)?;
        let parts = Parts {
            core,
            buf,
            past: Past::new(),
            lent: Past::new(),
            table,
            seat,
        };
        Ok(LeanEnd { parts, taken: 0 })
    }

    /// Makes room to count the ids of so many packets that are sent or taken, in a channel with data pages. Only ids of open requests take any. Room never shrinks.
    pub fn reserve(&mut self, packets: u64) -> Result<(), AllocError>
        ensures same { self.new.driven ≡ self.old.driven }
        ensures room { OnOk result (packets ≤ self.new.room) }
        ensures kept { self.old.room ≤ self.new.room }
    {
        self.parts.table.reserve(packets)
    }

    /// For how many packets more it can count the ids, whatever these are.
    pub fn room(&self) -> u64
        ensures { result ≡ self.now.room }
    {
        self.parts.table.room()
    }

    // What an end is between two calls. The call does nothing: its contract is a law.
    pub(crate) fn stands(&self)
        ensures rests { is_busy_at self.now.driven.state.machine.stage ≡ false }
        ensures sound { IsSound self.now.driven.state.machine }
        ensures whole { self.now.driven.state.machine.stage ≡ Idle → broken self.now.driven.state ≡ None }
        ensures honest { (u : Told) → S.told self.now.driven.seat ≡ Some u → self.now.driven.state.machine.stage ≢ Stopped }
        ensures told { (u : Told) → S.told self.now.driven.seat ≡ Some u → u.state ≡ self.now.driven.state }
        ensures cells { S.cells self.now.driven.seat ≡ self.now.driven.state.machine.cells }
        ensures listed { length self.now.driven.state.pages.owners ≡ self.now.driven.state.pages.count }
    {
        // For the proof: what a value keeps is known where the value is read.
        let _parts = &self.parts;
    }

    // At most the words of a page go along with a packet. The call does nothing: its contract is a law.
    pub(crate) fn lends_few(&self, p: &[u64])
        ensures { along self.now.driven.state.pages p.now ≤ 512 }
    {
        // For the proof: what a table keeps is known where the table is read.
        self.parts.table.lends_in_bounds();
    }

    // The machine between two calls.
    pub(crate) fn machine(&self) -> &EndMachine
        ensures { result.now ≡ self.now.driven.state.machine }
    {
        &self.parts.core.machine
    }

    // Whether it refused what it loaded, and makes no step any more.
    pub(crate) fn is_stopped(&self) -> bool
        ensures stopped { result ≡ true → self.now.driven.state.machine.stage ≡ Stopped }
        ensures not { result ≡ false → (self.now.driven.state.machine.stage ≡ Idle) × (broken self.now.driven.state ≡ None) }
    {
        self.parts.core.is_stopped()
    }

    // Why it is stopped, where it is.
    pub(crate) fn why(&self) -> Why
        ensures { result ≡ why_of self.now.driven.state.machine }
    {
        self.parts.core.why()
    }

    /// How many data pages the channel has.
    pub fn pages(&self) -> u32
        ensures { result ≡ self.now.driven.state.pages.count }
    {
        self.parts.core.pages.count
    }

    /// Whether this end has a page of the channel, or holds it. Of a page that the channel hasn't, neither.
    pub fn owns(&self, page: u32) -> bool
        ensures { result ≡ owned_in self.now.driven.state.pages.owners page }
    {
        self.parts.table.owns(page)
    }

    /// Whether page words that came with the packet that was taken last are still to be loaded.
    pub fn is_due(&self) -> bool
        ensures clear { result ≡ false → self.now.driven.state.pages.due ≡ Clear }
        ensures due { result ≡ true → self.now.driven.state.pages.due ≢ Clear }
    {
        matches!(self.parts.core.pages.due, Due::Loads { .. })
    }

    // Whether a store of this word of a page may begin, as far as the page goes: nothing is to be loaded, and the end has the page, or holds it, and the word
    // is lent.
    pub(crate) fn can_store(&self, page: u32, word: u32) -> bool
        ensures may { IsTrue result → MayStore (layout self.now.driven.state.pages.count) self.now.driven.state.machine.side self.now.driven.state.pages page word }
        ensures whole { MayStore (layout self.now.driven.state.pages.count) self.now.driven.state.machine.side self.now.driven.state.pages page word → IsTrue result }
    {
        !self.is_due() && self.parts.table.can_store(page, word)
    }

    /// Whether a packet may be sent, as far as the data pages go: nothing is to be loaded; the end has the page that a request names, and all earlier requests
    /// of its id are completed; a completion answers a request that was taken and isn't completed. The answer takes the same time whatever was sent and got.
    pub fn may_send(&self, p: &[u64]) -> bool
        requires packet { IsPacket p.now }
        ensures may { IsTrue result → MayLend self.now.driven.state p.now }
        ensures whole { MayLend self.now.driven.state p.now → IsTrue result }
    {
        self.pages() == 0 || !self.is_due() && self.parts.table.may_send(p)
    }

    /// The part of a page that goes along with a packet, if that is sent now: the page that is held under a completion's id, with all its words, and what any
    /// other packet names.
    pub fn part_of(&self, p: &[u64]) -> Option<Loan>
        requires packet { IsPacket p.now }
        ensures part { loans result ≡ part_in self.now.driven.state.pages.owners p.now }
        ensures words { along self.now.driven.state.pages p.now ≡ part_len result }
        ensures inside { (a : Part) → result ≡ Some a → (a.page < self.now.driven.state.pages.count) × (a.words ≤ 512) }
    {
        self.parts.table.part_of(p)
    }

    /// The first words of a page, as this end knows them.
    pub fn words(&self, part: Loan) -> &[u64]
        requires page { part.page < self.now.driven.state.pages.count }
        requires words { part.words ≤ 512 }
        ensures { result.now ≡ values part.words (word_of self.now.driven.state.pages.copy part.page) }
    {
        self.parts.table.words(part)
    }

    // The words of this part of a page, or none.
    pub(crate) fn words_of(&self, part: Option<Loan>) -> &[u64]
        requires inside { (a : Part) → part ≡ Some a → (a.page < self.now.driven.state.pages.count) × (a.words ≤ 512) }
        ensures words { result.now ≡ part_words self.now.driven.state.pages.copy part }
        ensures len { length result.now ≡ part_len part }
    {
        match part {
            Some(part) => self.words(part),
            None => &[],
        }
    }

    /// Stores words into the part of a page that goes along with a packet, from its first word on: one step a word. The send of that packet, if it comes next,
    /// lends or brings back these words, and behind them those that stood there.
    pub fn lay(&mut self, p: &[u64], words: &[u64])
        requires whole { broken self.old.driven.state ≡ None }
        requires unmarked { self.old.driven.state.machine.marked ≡ false }
        requires packet { IsPacket p.now }
        requires lends { MayLend self.old.driven.state p.now }
        requires fits { length words.now ≤ along self.old.driven.state.pages p.now }
        ensures pages { self.new.driven.state.pages ≡ laid self.old.driven.state.pages p.now words.now }
        ensures ran { (a : Lending) → part_in self.old.driven.state.pages.owners p.now ≡ Some a → RanStores self.old.driven.state self.new.driven.state a.page words.now (S.told self.old.driven.seat) (S.told self.new.driven.seat) (S.tale self.old.driven.seat) (S.tale self.new.driven.seat) }
        ensures none { part_in self.old.driven.state.pages.owners p.now ≡ None → self.new ≡ self.old }
        ensures kept { StaysByPages self.old.driven self.new.driven × (self.new.room ≡ self.old.room) }
        ensures same { S.same self.old.driven.seat self.new.driven.seat }
        ensures lends { MayLend self.new.driven.state p.now }
        ensures along { along self.new.driven.state.pages p.now ≡ along self.old.driven.state.pages p.now }
        ensures words { self.new.driven.state.pages.count ≢ 0 → take (length words.now) (last_words (pages_sent (layout self.new.driven.state.pages.count) self.new.driven.state.pages p.now).sent) ≡ words.now }
    {
        self.parts.table.lends_in_bounds();
        if let Some(part) = self.parts.table.part_of(p) {
            self.parts.store_words(part.page, words);
        }
    }

    // Stores a word of a page that this end has, or one of the lent words of a page that it holds: 1 step.
    pub(crate) fn page_store(&mut self, page: u32, word: u32, v: u64)
        requires whole { broken self.old.driven.state ≡ None }
        requires unmarked { self.old.driven.state.machine.marked ≡ false }
        requires may { MayStore (layout self.old.driven.state.pages.count) self.old.driven.state.machine.side self.old.driven.state.pages page word }
        ensures ran { RanPages self.old.driven.state self.new.driven.state (StoreWord page word v) (S.told self.old.driven.seat) (S.told self.new.driven.seat) (S.tale self.old.driven.seat) (S.tale self.new.driven.seat) }
        ensures pages { self.new.driven.state.pages ≡ page_stored self.old.driven.state.pages page word v }
        ensures kept { StaysByPages self.old.driven self.new.driven × (self.new.room ≡ self.old.room) }
        ensures same { S.same self.old.driven.seat self.new.driven.seat }
    {
        self.parts.store_word(page, word, v);
    }

    /// Loads the page words that came with the packet that was taken last, and answers which part of a page they are: one step a word, at most 512. Where none are due
    /// there is no step.
    pub fn load(&mut self) -> Option<Loan>
        requires whole { broken self.old.driven.state ≡ None }
        ensures none { self.old.driven.state.pages.due ≡ Clear → (result ≡ None) × (self.new ≡ self.old) }
        ensures all { self.old.driven.state.pages.due ≢ Clear → (a : Part) × (result ≡ Some a) × LoadsPart S.told S.tale a self.old.driven self.new.driven }
        ensures inside { (a : Part) → result ≡ Some a → (a.page < self.new.driven.state.pages.count) × (a.words ≤ 512) }
        ensures held { (self.new.driven.state.pages.count ≡ self.old.driven.state.pages.count) × (self.new.driven.state.pages.sent ≡ self.old.driven.state.pages.sent) }
        ensures kept { StaysByPages self.old.driven self.new.driven × (self.new.room ≡ self.old.room) }
        ensures same { S.same self.old.driven.seat self.new.driven.seat }
    {
        let Due::Loads { page, words, .. } = self.parts.core.pages.due else {
            return None;
        };
        self.parts.load_words(page, words);
        Some(Loan { page, words })
    }

    /// Why the end is broken, where it is. A broken end refuses each send and take with this, and makes no step.
    pub fn broken(&self) -> Option<Why>
        ensures { result ≡ broken self.now.driven.state }
    {
        if !self.parts.core.is_stopped() {
            return None;
        }
        Some(self.parts.core.why())
    }

    /// Whether a packet of so many words fits into the ring, which is never quite full.
    pub fn fits(&self, len: u32) -> bool
        ensures { IsTrue result ↔ (len + 1 < self.now.driven.state.machine.cells) }
    {
        len as u64 + 1 < self.parts.core.machine.cells as u64
    }

    /// Whether the end is asleep: its next call is a poll.
    pub fn is_asleep(&self) -> bool
        ensures { result ≡ self.now.driven.state.machine.asleep }
    {
        self.parts.core.machine.asleep
    }

    /// Whether the end said that it sends nothing more: it makes no call any more.
    pub fn is_marked(&self) -> bool
        ensures { result ≡ self.now.driven.state.machine.marked }
    {
        self.parts.core.machine.marked
    }

    /// The words of the packet that the last take gave, as they were copied. There are none where it was refused.
    pub fn taken(&self) -> &[u64]
        ensures { result.now ≡ self.now.driven.taken }
    {
        front(&self.parts.buf, self.taken)
    }

    /// The seat.
    pub fn seat(&self) -> &S
        ensures { result.now ≡ self.now.driven.seat }
    {
        &self.parts.seat
    }

    /// Sends a packet that fits: it goes, and the answer says whether that raised the peer's signal; or it waits for room, with the free bytes and those that
    /// it needs; or the end breaks at a read index in no form, or was broken. At most n + 6 steps for n words. Source: Linux
    /// `drivers/hv/ring_buffer.c`, `hv_ringbuffer_write`.
    #[inline(always)]
    pub fn send(&mut self, p: &[u64]) -> Result<Signalled, SendRefusal>
        requires awake { IsAwakeEnd self.old.driven.state }
        requires packet { IsPacket p.now × (length p.now + 1 < self.old.driven.state.machine.cells) }
        requires lends { MayLend self.old.driven.state p.now }
        requires counts { self.old.driven.state.pages.count ≢ 0 → 0 < self.old.room }
        ensures sent { self.new.driven.state.sent ≡ sent_by_answer result p.now self.old.driven.state.sent }
        ensures got { (self.new.driven.state.got ≡ self.old.driven.state.got) × (self.new.driven.taken ≡ self.old.driven.taken) }
        ensures pages { self.new.driven.state.pages ≡ pages_by_send result p.now self.old.driven.state.pages }
        ensures count { self.new.driven.state.pages.count ≡ self.old.driven.state.pages.count }
        ensures counts { self.old.room ≤ self.new.room + 1 }
        ensures room { LacksRoom (length p.now) result }
        ensures broken { (broken self.old.driven.state ≡ found_by_send result) × (broken self.new.driven.state ≡ left_by_send result) }
        ensures call { broken self.old.driven.state ≡ None → call_by self.new.driven.state.machine.ended ≡ Send }
        ensures leaves { broken self.old.driven.state ≡ None → Leaves self.old.driven.state.machine self.new.driven.state.machine }
        ensures after { broken self.old.driven.state ≡ None → LeavesBy Send self.old.driven.state.machine self.new.driven.state.machine }
        ensures len { broken self.old.driven.state ≡ None → self.new.driven.state.machine.len ≡ length p.now }
        ensures lists { broken self.old.driven.state ≡ None → (self.new.driven.state.sent ≡ sent_by self.new.driven.state.machine self.old.driven.state.sent p.now) × (self.new.driven.state.past ≡ past_of self.new.driven.state.machine.ended self.new.driven.state.machine.saw p.now self.old.driven.state.past) }
        ensures uncounted { broken self.old.driven.state ≡ None → is_sent self.new.driven.state.machine.ended ≡ false → self.new.room ≡ self.old.room }
        ensures ran { (broken self.old.driven.state ≡ None → (result ≡ send_answer self.new.driven.state.machine.ended self.new.driven.state.machine) × MakesSteps S.told S.tale (send_begun self.old.driven.state.machine (length p.now)) p.now self.old.driven self.new.driven) × ((why : WhyOne) → broken self.old.driven.state ≡ Some why → self.new ≡ self.old) }
        ensures same { S.same self.old.driven.seat self.new.driven.seat × IsAwakeEnd self.new.driven.state × (self.new.driven.state.machine.cells ≡ self.old.driven.state.machine.cells) × (self.new.driven.state.machine.start ≡ self.old.driven.state.machine.start) × (self.new.driven.state.machine.read ≡ self.old.driven.state.machine.read) }
    {
        if self.parts.core.is_stopped() {
            return Err(SendRefusal::Stopped {
                why: self.parts.core.why(),
            });
        }
        self.parts.core.begin_send(p.len() as u32);
        self.parts.make_call::<SendLoops>(p);
        self.parts.core.send_answered()
    }

    /// Takes the first packet that waits, whose words `taken` gives; or none waits; or the end breaks at an index or a packet in no form, or was broken.
    /// Behind a refusal `taken` gives no words, neither of the packet that was refused nor of an earlier one. At most n + 1 steps for n words. Source: Linux
    /// `drivers/hv/ring_buffer.c`, `hv_pkt_iter_first`.
    #[inline(always)]
    pub fn take(&mut self) -> Result<(), TakeRefusal>
        requires awake { IsAwakeEnd self.old.driven.state }
        requires clear { IsClear self.old.driven.state.pages }
        requires counts { self.old.driven.state.pages.count ≢ 0 → 0 < self.old.room }
        ensures got { (self.new.driven.state.got ≡ got_by_answer (refused result) self.new.driven.taken self.old.driven.state.got) × (refused result ≡ None → IsPacket self.new.driven.taken) }
        ensures taken { OnErr result (self.new.driven.taken ≡ []) }
        ensures pages { self.new.driven.state.pages ≡ pages_by_take (refused result) self.new.driven.taken self.old.driven.state.pages }
        ensures count { self.new.driven.state.pages.count ≡ self.old.driven.state.pages.count }
        ensures counts { self.old.room ≤ self.new.room + 1 }
        ensures sent { self.new.driven.state.sent ≡ self.old.driven.state.sent }
        ensures broken { (broken self.old.driven.state ≡ found_by_take (refused result)) × (broken self.new.driven.state ≡ left_by_take (refused result)) }
        ensures call { broken self.old.driven.state ≡ None → call_by self.new.driven.state.machine.ended ≡ Take }
        ensures leaves { broken self.old.driven.state ≡ None → Leaves self.old.driven.state.machine self.new.driven.state.machine }
        ensures after { broken self.old.driven.state ≡ None → LeavesBy Take self.old.driven.state.machine self.new.driven.state.machine }
        ensures took { refused result ≡ None → Gets self.new.driven.state.machine.len self.old.driven.state.got self.new.driven.state.got self.old.driven.state.past self.new.driven.state.past }
        ensures size { refused result ≡ None → length self.new.driven.taken ≡ self.new.driven.state.machine.len }
        ensures past { broken self.old.driven.state ≡ None → is_took self.new.driven.state.machine.ended ≡ false → self.new.driven.state.past ≡ past_of self.new.driven.state.machine.ended self.new.driven.state.machine.saw [] self.old.driven.state.past }
        ensures uncounted { broken self.old.driven.state ≡ None → is_took self.new.driven.state.machine.ended ≡ false → self.new.room ≡ self.old.room }
        ensures ran { (broken self.old.driven.state ≡ None → (refused result ≡ cond (is_took self.new.driven.state.machine.ended) None (Some (take_refusal self.new.driven.state.machine.ended self.new.driven.state.machine))) × MakesSteps S.told S.tale (take_begun self.old.driven.state.machine) [] self.old.driven self.new.driven) × ((why : WhyOne) → broken self.old.driven.state ≡ Some why → self.new ≡ record self.old { driven = record self.old.driven { taken = [] } }) }
        ensures same { S.same self.old.driven.seat self.new.driven.seat × IsAwakeEnd self.new.driven.state × (self.new.driven.state.machine.cells ≡ self.old.driven.state.machine.cells) }
    {
        self.taken = 0;
        if self.parts.core.is_stopped() {
            return Err(TakeRefusal::Stopped {
                why: self.parts.core.why(),
            });
        }
        self.parts.core.begin_take();
        self.parts.make_call::<TakeLoops>(&[]);
        let answer = self.parts.core.take_answered();
        if answer.is_ok() {
            self.taken = self.parts.core.machine.len as usize;
        }
        answer
    }

    /// Gives back the room of all packets that were taken, and says whether that raised a producer that waits for room. At most 5 steps. Source: Linux
    /// `drivers/hv/ring_buffer.c`, `hv_pkt_iter_close`.
    #[inline(always)]
    pub fn commit(&mut self) -> Signalled
        requires awake { IsAwakeEnd self.old.driven.state }
        requires clear { IsClear self.old.driven.state.pages }
        requires whole { broken self.old.driven.state ≡ None }
        ensures room { (self.new.driven.state.machine.start ≡ self.old.driven.state.machine.read) × (self.new.driven.state.machine.read ≡ self.old.driven.state.machine.read) }
        ensures sent { self.new.driven.state.sent ≡ self.old.driven.state.sent }
        ensures got { (self.new.driven.state.got ≡ self.old.driven.state.got) × (self.new.driven.taken ≡ self.old.driven.taken) }
        ensures pages { (self.new.driven.state.pages ≡ self.old.driven.state.pages) × (self.new.room ≡ self.old.room) }
        ensures broken { broken self.new.driven.state ≡ None }
        ensures call { call_by self.new.driven.state.machine.ended ≡ Commit }
        ensures leaves { Leaves self.old.driven.state.machine self.new.driven.state.machine }
        ensures after { LeavesBy Commit self.old.driven.state.machine self.new.driven.state.machine }
        ensures past { self.new.driven.state.past ≡ past_of self.new.driven.state.machine.ended self.new.driven.state.machine.saw [] self.old.driven.state.past }
        ensures ran { (result ≡ commit_answer self.new.driven.state.machine.ended) × MakesSteps S.told S.tale (commit_begun self.old.driven.state.machine) [] self.old.driven self.new.driven }
        ensures same { S.same self.old.driven.seat self.new.driven.seat × IsAwakeEnd self.new.driven.state × (self.new.driven.state.machine.cells ≡ self.old.driven.state.machine.cells) }
    {
        self.parts.core.begin_commit();
        self.parts.make_call::<CommitLoops>(&[]);
        self.parts.core.commit_answered()
    }

    /// Arms the signal and looks once more, for packets, for more room than `want` bytes where there is one, and for the peer's mark. Work comes exactly
    /// where a look found something, or an index in no form. Otherwise the end is asleep, and polls next. At most 7 steps.
    #[inline]
    pub fn arm(&mut self, want: Option<u32>) -> Armed
        requires awake { IsAwakeEnd self.old.driven.state }
        requires clear { IsClear self.old.driven.state.pages }
        requires whole { broken self.old.driven.state ≡ None }
        requires room { self.old.driven.state.machine.start ≡ self.old.driven.state.machine.read }
        requires want { IsWant self.old.driven.state.machine.cells want }
        ensures asleep { (self.new.driven.state.machine.asleep ≡ is_asleep result) × (self.new.driven.state.machine.marked ≡ false) }
        ensures sent { self.new.driven.state.sent ≡ self.old.driven.state.sent }
        ensures got { (self.new.driven.state.got ≡ self.old.driven.state.got) × (self.new.driven.taken ≡ self.old.driven.taken) }
        ensures pages { (self.new.driven.state.pages ≡ self.old.driven.state.pages) × (self.new.room ≡ self.old.room) }
        ensures broken { broken self.new.driven.state ≡ None }
        ensures call { call_by self.new.driven.state.machine.ended ≡ Arm }
        ensures leaves { Leaves self.old.driven.state.machine self.new.driven.state.machine }
        ensures after { LeavesBy Arm self.old.driven.state.machine self.new.driven.state.machine }
        ensures past { self.new.driven.state.past ≡ past_of self.new.driven.state.machine.ended self.new.driven.state.machine.saw [] self.old.driven.state.past }
        ensures ran { MakesSteps S.told S.tale (arm_begun self.old.driven.state.machine (want_of want)) [] self.old.driven self.new.driven }
        ensures same { S.same self.old.driven.seat self.new.driven.seat × (self.new.driven.state.machine.cells ≡ self.old.driven.state.machine.cells) × (self.new.driven.state.machine.start ≡ self.new.driven.state.machine.read) }
    {
        self.parts.core.begin_arm(want);
        self.parts.make_call::<ArmLoops>(&[]);
        self.parts.core.arm_answered()
    }

    /// Takes the signal of an end that is asleep. False comes exactly where it was down. After true the end is awake. At most 3 steps.
    #[inline]
    pub fn poll_signal(&mut self) -> bool
        requires asleep { (self.old.driven.state.machine.asleep ≡ true) × (self.old.driven.state.machine.marked ≡ false) }
        requires whole { broken self.old.driven.state ≡ None }
        ensures asleep { (self.new.driven.state.machine.asleep ≡ not result) × (self.new.driven.state.machine.marked ≡ false) }
        ensures sent { self.new.driven.state.sent ≡ self.old.driven.state.sent }
        ensures got { (self.new.driven.state.got ≡ self.old.driven.state.got) × (self.new.driven.taken ≡ self.old.driven.taken) }
        ensures pages { (self.new.driven.state.pages ≡ self.old.driven.state.pages) × (self.new.room ≡ self.old.room) }
        ensures broken { broken self.new.driven.state ≡ None }
        ensures call { call_by self.new.driven.state.machine.ended ≡ Poll }
        ensures leaves { Leaves self.old.driven.state.machine self.new.driven.state.machine }
        ensures after { LeavesBy Poll self.old.driven.state.machine self.new.driven.state.machine }
        ensures past { self.new.driven.state.past ≡ past_of self.new.driven.state.machine.ended self.new.driven.state.machine.saw [] self.old.driven.state.past }
        ensures ran { MakesSteps S.told S.tale (poll_begun self.old.driven.state.machine) [] self.old.driven self.new.driven }
        ensures same { S.same self.old.driven.seat self.new.driven.seat × (self.new.driven.state.machine.cells ≡ self.old.driven.state.machine.cells) × (self.new.driven.state.machine.start ≡ self.old.driven.state.machine.start) × (self.new.driven.state.machine.read ≡ self.old.driven.state.machine.read) }
    {
        self.parts.core.begin_poll();
        self.parts.make_call::<PollLoops>(&[]);
        !self.parts.core.machine.asleep
    }

    /// Says that this end sends nothing more, and raises the peer's signal: 2 steps. Afterwards it makes no call.
    #[inline]
    pub fn mark(&mut self)
        requires awake { IsAwakeEnd self.old.driven.state }
        requires clear { IsClear self.old.driven.state.pages }
        requires whole { broken self.old.driven.state ≡ None }
        ensures marked { self.new.driven.state.machine.marked ≡ true }
        ensures sent { self.new.driven.state.sent ≡ self.old.driven.state.sent }
        ensures got { (self.new.driven.state.got ≡ self.old.driven.state.got) × (self.new.driven.taken ≡ self.old.driven.taken) }
        ensures pages { (self.new.driven.state.pages ≡ self.old.driven.state.pages) × (self.new.room ≡ self.old.room) }
        ensures broken { broken self.new.driven.state ≡ None }
        ensures call { call_by self.new.driven.state.machine.ended ≡ Mark }
        ensures leaves { Leaves self.old.driven.state.machine self.new.driven.state.machine }
        ensures after { LeavesBy Mark self.old.driven.state.machine self.new.driven.state.machine }
        ensures past { self.new.driven.state.past ≡ past_of self.new.driven.state.machine.ended self.new.driven.state.machine.saw [] self.old.driven.state.past }
        ensures ran { MakesSteps S.told S.tale (mark_begun self.old.driven.state.machine) [] self.old.driven self.new.driven }
        ensures same { S.same self.old.driven.seat self.new.driven.seat × (self.new.driven.state.machine.cells ≡ self.old.driven.state.machine.cells) }
    {
        self.parts.core.begin_mark();
        self.parts.make_call::<PlainLoop>(&[]);
    }

    // Whether the peer said that it sends nothing more: 1 step.
    pub(crate) fn peer_mark(&mut self) -> bool
        requires awake { IsAwakeEnd self.old.driven.state }
        requires whole { broken self.old.driven.state ≡ None }
        ensures sent { self.new.driven.state.sent ≡ self.old.driven.state.sent }
        ensures got { (self.new.driven.state.got ≡ self.old.driven.state.got) × (self.new.driven.taken ≡ self.old.driven.taken) }
        ensures pages { (self.new.driven.state.pages ≡ self.old.driven.state.pages) × (self.new.room ≡ self.old.room) }
        ensures call { call_by self.new.driven.state.machine.ended ≡ PeerMark }
        ensures leaves { Leaves self.old.driven.state.machine self.new.driven.state.machine }
        ensures after { LeavesBy PeerMark self.old.driven.state.machine self.new.driven.state.machine }
        ensures past { self.new.driven.state.past ≡ past_of self.new.driven.state.machine.ended self.new.driven.state.machine.saw [] self.old.driven.state.past }
        ensures ran { (result ≡ peer_mark_answer self.new.driven.state.machine.ended) × MakesSteps S.told S.tale (peer_mark_begun self.old.driven.state.machine) [] self.old.driven self.new.driven }
        ensures same { S.same self.old.driven.seat self.new.driven.seat }
    {
        self.parts.core.begin_peer_mark();
        self.parts.make_call::<PlainLoop>(&[]);
        self.parts.core.peer_mark_answered()
    }

    /// The seat, at the end. Where the seat tells its end's state, that is this end's.
    pub fn into_seat(self) -> S
        ensures seat { result ≡ self.driven.seat }
        ensures told { (u : Told) → S.told result ≡ Some u → u.state ≡ self.driven.state }
    {
        let LeanEnd { parts, taken: _ } = self;
        let Parts {
            core: _,
            buf,
            past: _,
            lent: _,
            table,
            seat,
        } = parts;
        drop(buf);
        drop(table);
        seat
    }
}

impl LeanEnd<SoloMem> {
    // Exchanges the memories of two ends of one channel.
    pub(crate) fn swap_memory(&mut self, other: &mut LeanEnd<SoloMem>)
        requires cells { self.old.driven.state.machine.cells ≡ other.old.driven.state.machine.cells }
        requires pages { self.old.driven.state.pages.count ≡ other.old.driven.state.pages.count }
        ensures this { self.new ≡ record self.old { driven = record self.old.driven { seat = other.old.driven.seat } } }
        ensures that { other.new ≡ record other.old { driven = record other.old.driven { seat = self.old.driven.seat } } }
    {
        mem::swap(&mut self.parts.seat, &mut other.parts.seat);
    }
}
