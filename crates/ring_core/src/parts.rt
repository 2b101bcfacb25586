//! What a call works on, and the call as a whole.
ghost use Rattle.std.specs.Prelude.{◌≡◌, ◌≢◌, ◌+◌, ◌<◌, ◌≤◌, true, false, length, take, ℕ, [], ◌∷◌, ◌++◌, Some};
ghost use Rattle.channel_trace.specs.Runs.{sent_of, got_of};
ghost use Rattle.channel_trace.specs.declared.event.Event.TheVariants.{Sent as SentEvent, Got as GotEvent};
ghost use Rattle.page_kept.specs.Kept.{pages_sent, pages_took};
ghost use Rattle.page_kept.specs.Items.{item_of, values};
ghost use Rattle.page_kept.specs.Keepers.{MayStore};
ghost use Rattle.page_kept.specs.Layouts.{layout};
ghost use Rattle.page_kept.specs.Stepped.{page_stored};
ghost use Rattle.page_kept.specs.declared.due.Due.TheVariants.{Clear, Loads};
ghost use Rattle.page_kept.specs.declared.page_call.PageCall.TheVariants.{LoadWords, StoreWord};
ghost use Rattle.page_table.specs.Table.{word_of};
ghost use Rattle.ring_core.specs.Laying.{RanStores, stored_all};
ghost use Rattle.ring_core.specs.PageRuns.{RanPages};
ghost use Rattle.ring_machine.specs.PageCalls.{newest};
ghost use Rattle.ring_machine.specs.EndCalls.{Send, Take};
ghost use Rattle.ring_machine.specs.Endings.{Leaves, LeavesBy};
ghost use Rattle.ring_machine.specs.Loops.{Starts};
ghost use Rattle.ring_machine.specs.States.{IsPacket, Gets, entered, shown, sent_by, got_by, past_by, past_of, pages_by, Continues};
ghost use Rattle.ring_machine.specs.Steps.{is_busy_at, is_sent, is_took, call_at, call_by};
ghost use Rattle.ring_core.specs.Told.{Left};
ghost use Rattle.ring_machine.specs.declared.machine.Stage.TheVariants.{Idle, Stopped};
ghost use Rattle.ring_core.specs.declared.told.Told.{Told};
ghost use Rattle.ring_core.specs.Listing.{AreListed, kept_in, standing};

use crate::driver::{Driver, page_step};
use crate::page_words::{load_words, store_words, words_in};
use crate::seat::Seatlike;
use channel_trace::Past;
use page_table::{Loan, PageTable};
use ring_machine::{EndCore, Ending};

/// The machine, its seat, a buffer for one packet, and the table of its pages. What the end did, and the page words that went along, have no bytes.
#[derive(Drop)]
pub(crate) struct Parts<S> {
    pub(crate) core: EndCore,
    pub(crate) buf: Vec<u64>,
    pub(crate) past: Past,
    pub(crate) lent: Past,
    pub(crate) table: PageTable,
    pub(crate) seat: S,
    pub(crate) ghost wide: { length buf.items ≡ core.machine.cells },
    pub(crate) ghost listed: { AreListed core.pages past.events lent.events table },
}

// The first words of the buffer.
#[inline(always)]
pub(crate) fn front(buf: &Vec<u64>, n: usize) -> &[u64]
    requires { n ≤ length buf.now.items }
    ensures { result.now ≡ take n buf.now.items }
{
    &buf[..n]
}

impl<S: Seatlike> Parts<S> {
    // Notes a packet that was sent, in a channel with pages: the words that it lends or brings back go along.
    #[cold]
    #[inline(never)]
    fn note_sent_page(&mut self, packet: &[u64])
        requires some { self.old.core.pages.count ≢ 0 }
        requires packet { IsPacket packet.now }
        requires room { 0 < self.old.table.counts.room }
        ensures past { self.new.past.events ≡ SentEvent packet.now ∷ self.old.past.events }
        ensures pages { kept_in self.new.core.pages self.new.past.events self.new.lent.events self.new.table ≡ pages_sent (layout self.old.core.pages.count) (kept_in self.old.core.pages self.old.past.events self.old.lent.events self.old.table) packet.now }
        ensures room { self.old.table.counts.room ≤ self.new.table.counts.room + 1 }
        ensures kept { (self.new.core ≡ self.old.core) × (self.new.buf ≡ self.old.buf) × (self.new.seat ≡ self.old.seat) }
    {
        let part = self.table.sent(packet);
        self.lent = self.lent.sent(words_in(&self.table, part));
        self.past = self.past.sent(packet);
    }

    // Notes a packet that was sent.
    #[inline(always)]
    fn note_sent(&mut self, packet: &[u64])
        requires packet { IsPacket packet.now }
        requires room { self.old.core.pages.count ≢ 0 → 0 < self.old.table.counts.room }
        ensures past { self.new.past.events ≡ SentEvent packet.now ∷ self.old.past.events }
        ensures pages { kept_in self.new.core.pages self.new.past.events self.new.lent.events self.new.table ≡ pages_sent (layout self.old.core.pages.count) (kept_in self.old.core.pages self.old.past.events self.old.lent.events self.old.table) packet.now }
        ensures room { self.old.table.counts.room ≤ self.new.table.counts.room + 1 }
        ensures kept { (self.new.core ≡ self.old.core) × (self.new.buf ≡ self.old.buf) × (self.new.seat ≡ self.old.seat) }
    {
        if self.core.pages.count == 0 {
            self.past = self.past.sent(packet);
        } else {
            self.note_sent_page(packet);
        }
    }

    // Notes the packet that was taken, in a channel with pages: where a part of a page comes with it, that is to be loaded.
    #[cold]
    #[inline(never)]
    fn note_taken_page(&mut self)
        requires some { self.old.core.pages.count ≢ 0 }
        requires clear { self.old.core.pages.due ≡ Clear }
        requires packet { IsPacket (take self.old.core.machine.len self.old.buf.items) }
        requires room { 0 < self.old.table.counts.room }
        ensures past { self.new.past.events ≡ GotEvent (take self.old.core.machine.len self.old.buf.items) ∷ self.old.past.events }
        ensures pages { kept_in self.new.core.pages self.new.past.events self.new.lent.events self.new.table ≡ pages_took (layout self.old.core.pages.count) (kept_in self.old.core.pages self.old.past.events self.old.lent.events self.old.table) (take self.old.core.machine.len self.old.buf.items) }
        ensures room { self.old.table.counts.room ≤ self.new.table.counts.room + 1 }
        ensures kept { (self.new.core.machine ≡ self.old.core.machine) × (self.new.buf ≡ self.old.buf) × (self.new.seat ≡ self.old.seat) }
        ensures count { self.new.core.pages.count ≡ self.old.core.pages.count }
    {
        let words = front(&self.buf, self.core.machine.len as usize);
        self.past = self.past.got(words);
        match self.table.took(words) {
            Some(part) => self.core.queue_load(part.page, part.words),
            None => self.lent = self.lent.got(&[]),
        }
    }

    // Notes the packet that was taken: the first words of the buffer.
    #[inline(always)]
    fn note_taken(&mut self)
        requires clear { self.old.core.pages.due ≡ Clear }
        requires packet { IsPacket (take self.old.core.machine.len self.old.buf.items) }
        requires wide { self.old.core.machine.len ≤ length self.old.buf.items }
        requires room { self.old.core.pages.count ≢ 0 → 0 < self.old.table.counts.room }
        ensures past { self.new.past.events ≡ GotEvent (take self.old.core.machine.len self.old.buf.items) ∷ self.old.past.events }
        ensures pages { kept_in self.new.core.pages self.new.past.events self.new.lent.events self.new.table ≡ pages_took (layout self.old.core.pages.count) (kept_in self.old.core.pages self.old.past.events self.old.lent.events self.old.table) (take self.old.core.machine.len self.old.buf.items) }
        ensures room { self.old.table.counts.room ≤ self.new.table.counts.room + 1 }
        ensures kept { (self.new.core.machine ≡ self.old.core.machine) × (self.new.buf ≡ self.old.buf) × (self.new.seat ≡ self.old.seat) }
        ensures count { self.new.core.pages.count ≡ self.old.core.pages.count }
    {
        if self.core.pages.count == 0 {
            let words = front(&self.buf, self.core.machine.len as usize);
            self.past = self.past.got(words);
        } else {
            self.note_taken_page();
        }
    }

    // Notes what a call that has ended did.
    #[inline(always)]
    fn note(&mut self, packet: &[u64])
        requires wide { self.old.core.machine.len ≤ length self.old.buf.items }
        requires packet { is_sent self.old.core.machine.ended ≡ true → IsPacket packet.now }
        requires taken { is_took self.old.core.machine.ended ≡ true → IsPacket (take self.old.core.machine.len self.old.buf.items) × (self.old.core.pages.due ≡ Clear) }
        requires room { self.old.core.pages.count ≢ 0 → is_sent self.old.core.machine.ended ≡ true → 0 < self.old.table.counts.room }
        requires got_room { self.old.core.pages.count ≢ 0 → is_took self.old.core.machine.ended ≡ true → 0 < self.old.table.counts.room }
        ensures past { self.new.past.events ≡ past_by self.old.core.machine self.old.past.events packet.now self.old.buf.items }
        ensures pages { kept_in self.new.core.pages self.new.past.events self.new.lent.events self.new.table ≡ pages_by self.old.core.machine (kept_in self.old.core.pages self.old.past.events self.old.lent.events self.old.table) packet.now self.old.buf.items }
        ensures room { self.old.table.counts.room ≤ self.new.table.counts.room + 1 }
        ensures table { is_sent self.old.core.machine.ended ≡ false → is_took self.old.core.machine.ended ≡ false → self.new.table ≡ self.old.table }
        ensures kept { (self.new.core.machine ≡ self.old.core.machine) × (self.new.buf ≡ self.old.buf) × (self.new.seat ≡ self.old.seat) }
        ensures count { self.new.core.pages.count ≡ self.old.core.pages.count }
    {
        match self.core.machine.ended {
            Ending::SentQuiet | Ending::SentRaised => self.note_sent(packet),
            Ending::Took => self.note_taken(),
            Ending::Empty => self.past = self.past.empty(),
            Ending::FoundWork => {
                if self.core.machine.saw {
                    self.past = self.past.saw();
                }
            }
            Ending::Marked => self.past = self.past.marked(),
            Ending::PeerMarkUp => self.past = self.past.saw(),
            Ending::Fresh => {}
            Ending::Full => {}
            Ending::BadPeer => {}
            Ending::BadIndex => {}
            Ending::BadLength => {}
            Ending::BadOffset => {}
            Ending::CommittedQuiet => {}
            Ending::CommittedRaised => {}
            Ending::FellAsleep => {}
            Ending::NoSignal => {}
            Ending::Woke => {}
            Ending::PeerMarkDown => {}
        }
    }

    /// Makes the call that the machine has begun by this driver, and notes what it did.
    #[inline(always)]
    pub(crate) fn make_call<D: Driver<S>>(&mut self, packet: &[u64])
        requires starts { Starts self.old.core.machine }
        requires fits { S.cells self.old.seat ≡ self.old.core.machine.cells }
        requires pages { self.old.core.pages.count ≢ 0 → S.pages self.old.seat ≡ self.old.core.pages.count }
        requires goes_on { (u : Told) → S.told self.old.seat ≡ Some u → Continues u.state self.old.core.machine packet.now × (entered u.state self.old.core.machine packet.now ≡ shown self.old.core.machine packet.now self.old.buf.items (sent_of self.old.past.events) (got_of self.old.past.events) self.old.past.events (kept_in self.old.core.pages self.old.past.events self.old.lent.events self.old.table)) }
        requires packet { call_at self.old.core.machine.stage ≡ Send → IsPacket packet.now }
        requires clear { call_at self.old.core.machine.stage ≡ Take → self.old.core.pages.due ≡ Clear }
        requires room { self.old.core.pages.count ≢ 0 → call_at self.old.core.machine.stage ≡ Send → 0 < self.old.table.counts.room }
        requires got_room { self.old.core.pages.count ≢ 0 → call_at self.old.core.machine.stage ≡ Take → 0 < self.old.table.counts.room }
        ensures call { call_by self.new.core.machine.ended ≡ call_at self.old.core.machine.stage }
        ensures leaves { Leaves self.old.core.machine self.new.core.machine }
        ensures after { LeavesBy (call_at self.old.core.machine.stage) self.old.core.machine self.new.core.machine }
        ensures took { is_took self.new.core.machine.ended ≡ true → IsPacket (take self.new.core.machine.len self.new.buf.items) }
        ensures gets { is_took self.new.core.machine.ended ≡ true → Gets self.new.core.machine.len (got_of self.old.past.events) (got_of self.new.past.events) self.old.past.events self.new.past.events }
        ensures past { is_took self.new.core.machine.ended ≡ false → self.new.past.events ≡ past_of self.new.core.machine.ended self.new.core.machine.saw packet.now self.old.past.events }
        ensures left { Left (shown self.old.core.machine packet.now self.old.buf.items (sent_of self.old.past.events) (got_of self.old.past.events) self.old.past.events (kept_in self.old.core.pages self.old.past.events self.old.lent.events self.old.table)) (S.told self.old.seat) (S.told self.new.seat) (S.tale self.old.seat) (S.tale self.new.seat) self.new.core.machine (sent_of self.new.past.events) (got_of self.new.past.events) self.new.past.events (kept_in self.new.core.pages self.new.past.events self.new.lent.events self.new.table) }
        ensures idle { is_busy_at self.new.core.machine.stage ≡ false }
        ensures sent { sent_of self.new.past.events ≡ sent_by self.new.core.machine (sent_of self.old.past.events) packet.now }
        ensures got { got_of self.new.past.events ≡ got_by self.new.core.machine (got_of self.old.past.events) self.new.buf.items }
        ensures sent_kept { (call_at self.old.core.machine.stage ≡ Send → ⊥) → sent_of self.new.past.events ≡ sent_of self.old.past.events }
        ensures got_kept { (call_at self.old.core.machine.stage ≡ Take → ⊥) → (got_of self.new.past.events ≡ got_of self.old.past.events) × (self.new.buf.items ≡ self.old.buf.items) }
        ensures count { self.new.core.pages.count ≡ self.old.core.pages.count }
        ensures pages_by { kept_in self.new.core.pages self.new.past.events self.new.lent.events self.new.table ≡ pages_by self.new.core.machine (kept_in self.old.core.pages self.old.past.events self.old.lent.events self.old.table) packet.now self.new.buf.items }
        ensures pages_kept { (call_at self.old.core.machine.stage ≡ Send → ⊥) → (call_at self.old.core.machine.stage ≡ Take → ⊥) → (kept_in self.new.core.pages self.new.past.events self.new.lent.events self.new.table ≡ kept_in self.old.core.pages self.old.past.events self.old.lent.events self.old.table) × (self.new.table ≡ self.old.table) }
        ensures uncounted { is_sent self.new.core.machine.ended ≡ false → is_took self.new.core.machine.ended ≡ false → self.new.table ≡ self.old.table }
        ensures room { self.old.table.counts.room ≤ self.new.table.counts.room + 1 }
        ensures same { S.same self.old.seat self.new.seat }
        ensures cells { S.cells self.new.seat ≡ self.new.core.machine.cells }
        ensures pages { self.new.core.pages.count ≢ 0 → S.pages self.new.seat ≡ self.new.core.pages.count }
        ensures honest { (u : Told) → S.told self.new.seat ≡ Some u → self.new.core.machine.stage ≢ Stopped }
    {
        D::drive(&mut self.seat, &mut self.core, &mut self.buf, packet);
        self.note(packet);
    }

    /// Stores a word of a page, and keeps it in the copy: 1 step. It leaves the machine as it was.
    pub(crate) fn store_word(&mut self, page: u32, word: u32, v: u64)
        requires idle { self.old.core.machine.stage ≡ Idle }
        requires unmarked { self.old.core.machine.marked ≡ false }
        requires fits { S.cells self.old.seat ≡ self.old.core.machine.cells }
        requires pages { S.pages self.old.seat ≡ self.old.core.pages.count }
        requires told { (u : Told) → S.told self.old.seat ≡ Some u → u.state ≡ standing self.old.core.machine self.old.core.pages self.old.past.events self.old.lent.events self.old.table }
        requires may { MayStore (layout self.old.core.pages.count) self.old.core.machine.side (kept_in self.old.core.pages self.old.past.events self.old.lent.events self.old.table) page word }
        ensures ran { RanPages (standing self.old.core.machine self.old.core.pages self.old.past.events self.old.lent.events self.old.table) (standing self.new.core.machine self.new.core.pages self.new.past.events self.new.lent.events self.new.table) (StoreWord page word v) (S.told self.old.seat) (S.told self.new.seat) (S.tale self.old.seat) (S.tale self.new.seat) }
        ensures pages { kept_in self.new.core.pages self.new.past.events self.new.lent.events self.new.table ≡ page_stored (kept_in self.old.core.pages self.old.past.events self.old.lent.events self.old.table) page word v }
        ensures kept { (self.new.core ≡ self.old.core) × (self.new.past ≡ self.old.past) × (self.new.buf ≡ self.old.buf) × (self.new.table.counts ≡ self.old.table.counts) }
        ensures same { S.same self.old.seat self.new.seat }
        ensures cells { S.cells self.new.seat ≡ self.new.core.machine.cells }
    {
        let mut fast = self.core;
        fast.begin_page_store(page, word, v);
        page_step(&mut self.seat, &mut fast);
        self.table.set_word(page, word, v);
    }

    /// Stores words into a page, from its first word on, and keeps them in the copy: one step a word.
    pub(crate) fn store_words(&mut self, page: u32, words: &[u64])
        requires few { length words.now ≤ 512 }
        requires idle { self.old.core.machine.stage ≡ Idle }
        requires unmarked { self.old.core.machine.marked ≡ false }
        requires fits { S.cells self.old.seat ≡ self.old.core.machine.cells }
        requires pages { S.pages self.old.seat ≡ self.old.core.pages.count }
        requires told { (u : Told) → S.told self.old.seat ≡ Some u → u.state ≡ standing self.old.core.machine self.old.core.pages self.old.past.events self.old.lent.events self.old.table }
        requires may { (w : ℕ) → w < length words.now → MayStore (layout self.old.core.pages.count) self.old.core.machine.side (kept_in self.old.core.pages self.old.past.events self.old.lent.events self.old.table) page w }
        ensures ran { RanStores (standing self.old.core.machine self.old.core.pages self.old.past.events self.old.lent.events self.old.table) (standing self.new.core.machine self.new.core.pages self.new.past.events self.new.lent.events self.new.table) page words.now (S.told self.old.seat) (S.told self.new.seat) (S.tale self.old.seat) (S.tale self.new.seat) }
        ensures pages { kept_in self.new.core.pages self.new.past.events self.new.lent.events self.new.table ≡ stored_all (kept_in self.old.core.pages self.old.past.events self.old.lent.events self.old.table) page 0 words.now }
        ensures kept { (self.new.core ≡ self.old.core) × (self.new.past ≡ self.old.past) × (self.new.buf ≡ self.old.buf) × (self.new.table.counts ≡ self.old.table.counts) }
        ensures same { S.same self.old.seat self.new.seat }
        ensures cells { S.cells self.new.seat ≡ self.new.core.machine.cells }
    {
        store_words(&mut self.seat, &self.core, &mut self.table, page, words);
    }

    /// Loads the words of a page that are due, and keeps them in the copy: one step a word.
    pub(crate) fn load_words(&mut self, page: u32, words: u32)
        requires due { self.old.core.pages.due ≡ Loads page words 0 }
        requires idle { self.old.core.machine.stage ≡ Idle }
        requires fits { S.cells self.old.seat ≡ self.old.core.machine.cells }
        requires pages { S.pages self.old.seat ≡ self.old.core.pages.count }
        requires told { (u : Told) → S.told self.old.seat ≡ Some u → u.state ≡ standing self.old.core.machine self.old.core.pages self.old.past.events self.old.lent.events self.old.table }
        ensures ran { RanPages (standing self.old.core.machine self.old.core.pages self.old.past.events self.old.lent.events self.old.table) (standing self.new.core.machine self.new.core.pages self.new.past.events self.new.lent.events self.new.table) (LoadWords page words 0) (S.told self.old.seat) (S.told self.new.seat) (S.tale self.old.seat) (S.tale self.new.seat) }
        ensures got { (kept_in self.new.core.pages self.new.past.events self.new.lent.events self.new.table).got ≡ (kept_in self.old.core.pages self.old.past.events self.old.lent.events self.old.table).got ++ item_of (newest (got_of self.old.past.events)) (values words (word_of self.new.table.copy page)) ∷ [] }
        ensures sent { (kept_in self.new.core.pages self.new.past.events self.new.lent.events self.new.table).sent ≡ (kept_in self.old.core.pages self.old.past.events self.old.lent.events self.old.table).sent }
        ensures clear { (self.new.core.pages.due ≡ Clear) × (self.new.core.pages.count ≡ self.old.core.pages.count) }
        ensures kept { (self.new.core.machine ≡ self.old.core.machine) × (self.new.past ≡ self.old.past) × (self.new.buf ≡ self.old.buf) × (self.new.table.counts ≡ self.old.table.counts) }
        ensures same { S.same self.old.seat self.new.seat }
        ensures cells { S.cells self.new.seat ≡ self.new.core.machine.cells }
    {
        load_words(&mut self.seat, &mut self.core, &mut self.table, page, words);
        self.lent = self.lent.got(self.table.words(Loan { page, words }));
    }
}
