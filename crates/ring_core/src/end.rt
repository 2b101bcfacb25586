//! One end of a channel: it makes the steps of its calls by its seat, and keeps the lists of what it sent and got.
ghost use Rattle.std.specs.Prelude.{◌==◌, ℕ, ◌≡◌, ◌≢◌, ◌+◌, ◌*◌, ◌/◌, ◌<◌, ◌≤◌, ◌++◌, ◌∷◌, cond, true, false, not, [], length, Option, Some, None, Result, Ok, Err, IfOk, OnOk, IsTrue, ◌↔◌, take, ◌-◌};
ghost use Rattle.ring_machine.specs.Endings.{Leaves, LeavesBy, why_of, send_answer, commit_answer, is_asleep, peer_mark_answer, is_honest_send, want_of, IsWant};
ghost use Rattle.ring_machine.specs.EndCalls.{Send, Commit, Arm, Poll, Mark, PeerMark};
ghost use Rattle.ring_machine.specs.Places.{IsRingSize};
ghost use Rattle.page_kept.specs.Items.{packets};
ghost use Rattle.page_kept.specs.Kept.{pages_sent, pages_took};
ghost use Rattle.page_kept.specs.Keepers.{MayStore};
ghost use Rattle.page_kept.specs.Layouts.{layout};
ghost use Rattle.page_kept.specs.Stepped.{page_stored};
ghost use Rattle.page_kept.specs.declared.due.Due.TheVariants.{Clear};
ghost use Rattle.page_kept.specs.declared.page_call.PageCall.TheVariants.{StoreWord};
ghost use Rattle.page_kept.specs.Layouts.{Loan as Lending};
ghost use Rattle.page_table.specs.Table.{owned_in, loans, part_in};
ghost use Rattle.ring_core.specs.Laying.{RanStores, laid};
ghost use Rattle.ring_core.specs.PageRuns.{RanPages};
ghost use Rattle.ring_core.specs.Pages.{IsClear, along, first_kept, items_of, last_words, part_len};
ghost use Rattle.ring_core.specs.Seen.{SentRoom, Kept, KeptByPages};
ghost use Rattle.ring_core.specs.Loading.{Loads};
ghost use Rattle.ring_machine.specs.PageCalls.{newest};
ghost use Rattle.ring_machine.specs.States.{IsPacket, Gets, MayLend, resting_with, past_of, sent_by};
ghost use Rattle.ring_machine.specs.Steps.{IsSound, machine_new, is_sent, is_took, call_by, send_begun, commit_begun, arm_begun, poll_begun, mark_begun, peer_mark_begun};
ghost use Rattle.ring_core.specs.Taking.{Takes};
ghost use Rattle.ring_machine.specs.Endings.{refused};
ghost use Rattle.ring_core.specs.Told.{MakesSteps};
ghost use Rattle.ring_machine.specs.declared.last.SendRefusal.TheVariants.{Stopped as StoppedSend};
ghost use Rattle.ring_machine.specs.declared.machine.Stage.TheVariants.{Idle, Stopped};
ghost use Rattle.ring_core.specs.declared.told.Told.{Told};

use crate::keeping::{keep_got, keep_sent, keep_words, part_along, reserve_ids};
use crate::lean_end::LeanEnd;
use crate::packets::Packets;
use crate::room::Room;
use crate::seat::Seatlike;
use crate::solo_mem::SoloMem;
use page_table::Loan;
use ring_machine::{Armed, SendRefusal, Side, Signalled, Stage, TakeRefusal, Why};
use std::alloc::{AllocError, Global};
use std::marker::Model;

/// One end of a channel. Contracts see its state, its seat, and the spare room of its two lists of packets.
#[derive(Drop)]
pub struct End<S: Seatlike> {
    lean: LeanEnd<S>,
    sent: Packets,
    got: Packets,
}

impl<S: Seatlike> Model for End<S> {
    ghost use Rattle.ring_core.specs.Keeping.{Keeps};
    ghost use Rattle.ring_core.specs.Seen.{Seen};

    ghost Value = { Seen S };

    ghost view = { λ e. record { state = e.lean.driven.state; seat = e.lean.driven.seat; spare_sent = e.sent.room; spare_got = e.got.room } };

    ghost invariant = { λ e. Keeps S.pages e.lean e.sent e.got };
}

impl<S: Seatlike> End<S> {
    /// A new end of a channel whose rings have `d` bytes of data, and which has so many data pages, at most 128. It takes memory for one packet of `d / 8`
    /// words, and for a copy of the page words.
    pub fn make(
        alloc: Global,
        side: Side,
        d: u32,
        seat: S,
        pages: u32,
    ) -> Result<End<S>, AllocError>
    where
        S: Drop,
        requires size { IsRingSize d }
        requires pages { pages ≤ 128 }
        requires seat { (S.cells seat ≡ d / 8) × (S.pages seat ≡ pages) }
        requires told { (u : Told) → S.told seat ≡ Some u → u.state ≡ resting_with (machine_new side (d / 8)) [] [] [] (first_kept side pages) }
        ensures { IfOk result (λ e. (e.state ≡ resting_with (machine_new side (d / 8)) [] [] [] (first_kept side pages)) × (e.seat ≡ seat)) }
    {
        let lean = LeanEnd::make(alloc, side, d, seat, pages)?;
        let sent = Packets::new(alloc, pages != 0);
        let got = Packets::new(alloc, pages != 0);
        Ok(End { lean, sent, got })
    }

    /// Makes room in both lists. Afterwards the spare room is at least what was asked. After a refusal the lists are unchanged, and no room has
    /// shrunk.
    pub fn reserve(&mut self, sent: Room, got: Room) -> Result<(), AllocError>
        ensures state { (self.new.state ≡ self.old.state) × (self.new.seat ≡ self.old.seat) }
        ensures room { OnOk result ((sent.packets ≤ self.new.spare_sent.packets) × (sent.words ≤ self.new.spare_sent.words) × (got.packets ≤ self.new.spare_got.packets) × (got.words ≤ self.new.spare_got.words)) }
        ensures kept { (self.old.spare_sent.packets ≤ self.new.spare_sent.packets) × (self.old.spare_sent.words ≤ self.new.spare_sent.words) × (self.old.spare_got.packets ≤ self.new.spare_got.packets) × (self.old.spare_got.words ≤ self.new.spare_got.words) }
    {
        reserve_ids(
            &mut self.lean,
            &self.sent,
            &self.got,
            sent.packets,
            got.packets,
        )?;
        self.sent.reserve(sent)?;
        self.got.reserve(got)
    }

    /// The room that is left for packets that are sent.
    pub fn spare_sent(&self) -> Room
        ensures { result ≡ self.now.spare_sent }
    {
        self.sent.room()
    }

    /// The room that is left for packets that are got.
    pub fn spare_got(&self) -> Room
        ensures { result ≡ self.now.spare_got }
    {
        self.got.room()
    }

    /// Whether a packet of so many words fits into the ring, which is never quite full.
    pub fn fits(&self, len: u32) -> bool
        ensures { IsTrue result ↔ (8 * len + 8 < 8 * self.now.state.machine.cells) }
    {
        8 * len as u64 + 8 < 8 * self.cells() as u64
    }

    /// The cells of each ring.
    pub fn cells(&self) -> u32
        ensures { result ≡ self.now.state.machine.cells }
    {
        self.lean.machine().cells
    }

    /// How many data pages the channel has.
    pub fn pages(&self) -> u32
        ensures { result ≡ self.now.state.pages.count }
    {
        self.lean.pages()
    }

    /// Whether this end has a page of the channel, or holds it. Of a page that the channel hasn't, neither.
    pub fn owns(&self, page: u32) -> bool
        ensures { result ≡ owned_in self.now.state.pages.owners page }
    {
        self.lean.owns(page)
    }

    /// Whether a store of this word of a page may begin, as far as the page goes: nothing is to be loaded, and the end has the page, or holds it, and the word
    /// is lent.
    pub fn can_store(&self, page: u32, word: u32) -> bool
        ensures may { IsTrue result → MayStore (layout self.now.state.pages.count) self.now.state.machine.side self.now.state.pages page word }
        ensures whole { MayStore (layout self.now.state.pages.count) self.now.state.machine.side self.now.state.pages page word → IsTrue result }
    {
        self.lean.can_store(page, word)
    }

    /// In a channel with data pages the items are those of the packets, where nothing is due, and in one without there are none. What the seat tells is the end's
    /// state. The call does nothing: its contract is a law.
    pub fn items_fit(&self)
        ensures items { IsClear self.now.state.pages → self.now.state.pages.count ≢ 0 → (packets self.now.state.pages.sent ≡ self.now.state.sent) × (packets self.now.state.pages.got ≡ self.now.state.got) }
        ensures bare { self.now.state.pages.count ≡ 0 → (self.now.state.pages.sent ≡ []) × (self.now.state.pages.got ≡ []) }
        ensures told { (u : Told) → S.told self.now.seat ≡ Some u → u.state ≡ self.now.state }
    {
        self.lean.stands();
    }

    /// Its indices are in their rings, and the packet that it sent or took last fits into one. The call does nothing: its contract is a law.
    pub fn stands_inside(&self)
        ensures { IsSound self.now.state.machine }
    {
        self.lean.stands();
    }

    /// Whether a packet may be sent, as far as the data pages go: nothing is to be loaded; the end has the page that a request names, and all earlier requests
    /// of its id are completed; a completion answers a request that was taken and isn't completed. At most 512 page words go along. Each id's open requests are
    /// counted as packets go, so no list is looked through.
    pub fn can_lend(&mut self, p: &[u64]) -> bool
        requires packet { IsPacket p.now }
        ensures may { IsTrue result → MayLend self.old.state p.now }
        ensures whole { MayLend self.old.state p.now → IsTrue result }
        ensures few { IsTrue result → along self.old.state.pages p.now ≤ 512 }
        ensures same { self.new ≡ self.old }
    {
        self.lean.lends_few(p);
        self.lean.may_send(p)
    }

    /// Whether page words that came with the packet that was taken last are still to be loaded.
    pub fn is_due(&self) -> bool
        ensures clear { result ≡ false → self.now.state.pages.due ≡ Clear }
        ensures due { result ≡ true → self.now.state.pages.due ≢ Clear }
    {
        self.lean.is_due()
    }

    /// Whether a call can begin: the end is neither stopped, asleep nor marked.
    pub fn is_ready(&self) -> bool
        ensures { IsTrue result ↔ ((self.now.state.machine.stage ≡ Idle) × (self.now.state.machine.asleep ≡ false) × (self.now.state.machine.marked ≡ false)) }
    {
        let m = self.lean.machine();
        matches!(m.stage, Stage::Idle) && !m.asleep && !m.marked
    }

    /// Why it makes no step any more, where it refused what it loaded.
    pub fn broken(&self) -> Option<Why>
        ensures some { self.now.state.machine.stage ≡ Stopped → result ≡ Some (why_of self.now.state.machine) }
        ensures none { self.now.state.machine.stage ≢ Stopped → result ≡ None }
    {
        if !self.lean.is_stopped() {
            return None;
        }
        Some(self.lean.why())
    }

    /// Whether the end is asleep.
    pub fn is_asleep(&self) -> bool
        ensures { result ≡ self.now.state.machine.asleep }
    {
        self.lean.is_asleep()
    }

    /// Whether the end said that it sends nothing more.
    pub fn is_marked(&self) -> bool
        ensures { result ≡ self.now.state.machine.marked }
    {
        self.lean.is_marked()
    }

    /// Whether it gave back the cells of all packets that it took, as an arm asks.
    pub fn has_committed(&self) -> bool
        ensures { result ≡ (self.now.state.machine.start == self.now.state.machine.read) }
    {
        let m = self.lean.machine();
        m.start == m.read
    }

    /// Whether the last arm saw the peer's mark.
    pub fn saw_mark(&self) -> bool
        ensures { result ≡ self.now.state.machine.saw }
    {
        self.lean.machine().saw
    }

    /// The packets that were sent, in order, each with the page words that went along.
    pub fn sent(&self) -> &Packets
        ensures list { result.now.list ≡ self.now.state.sent }
        ensures items { items_of result.now.list result.now.lent ≡ self.now.state.pages.sent }
    {
        &self.sent
    }

    /// The packets that were got, in order, each with its page words: the last one has none yet where a load is due.
    pub fn got(&self) -> &Packets
        ensures list { result.now.list ≡ self.now.state.got }
        ensures items { items_of result.now.list result.now.lent ≡ self.now.state.pages.got }
    {
        &self.got
    }

    /// The seat.
    pub fn seat(&self) -> &S
        ensures value { result.now ≡ self.now.seat }
        ensures cells { S.cells self.now.seat ≡ self.now.state.machine.cells }
        ensures pages { S.pages self.now.seat ≡ self.now.state.pages.count }
    {
        self.lean.stands();
        self.lean.seat()
    }

    /// The seat, and the lists of what was sent and got.
    pub fn into_parts(self) -> (S, Packets, Packets)
        ensures seat { result.0 ≡ self.seat }
        ensures sent { result.1.list ≡ self.state.sent }
        ensures got { result.2.list ≡ self.state.got }
        ensures items { (items_of result.1.list result.1.lent ≡ self.state.pages.sent) × (items_of result.2.list result.2.lent ≡ self.state.pages.got) }
        ensures told { (u : Told) → S.told result.0 ≡ Some u → u.state ≡ self.state }
    {
        let End { lean, sent, got } = self;
        (lean.into_seat(), sent, got)
    }

    /// Sends a packet that fits, and says whether that raised the peer's signal. Full comes exactly where the loaded read index leaves no more
    /// room than the packet needs, and changes nothing. BadPeer comes exactly where that index is in no form, and stops the end. Stopped comes
    /// exactly where the end was stopped, and changes nothing. At most n + 6 steps for the n words of the packet. Source: Linux
    /// `drivers/hv/ring_buffer.c`, `hv_ringbuffer_write`.
    pub fn send(&mut self, p: &[u64]) -> Result<Signalled, SendRefusal>
        requires awake { self.old.state.machine.asleep ≡ false }
        requires unmarked { self.old.state.machine.marked ≡ false }
        requires packet { IsPacket p.now }
        requires fits { length p.now + 1 < self.old.state.machine.cells }
        requires lends { MayLend self.old.state p.now }
        requires room { (0 < self.old.spare_sent.packets) × (length p.now + along self.old.state.pages p.now ≤ self.old.spare_sent.words) }
        ensures ran { self.old.state.machine.stage ≡ Idle → MakesSteps S.told S.tale (send_begun self.old.state.machine (length p.now)) p.now self.old self.new }
        ensures answer { self.old.state.machine.stage ≡ Idle → (result ≡ send_answer self.new.state.machine.ended self.new.state.machine) × (call_by self.new.state.machine.ended ≡ Send) }
        ensures leaves { self.old.state.machine.stage ≡ Idle → Leaves self.old.state.machine self.new.state.machine }
        ensures after { self.old.state.machine.stage ≡ Idle → LeavesBy Send self.old.state.machine self.new.state.machine }
        ensures len { self.old.state.machine.stage ≡ Idle → self.new.state.machine.len ≡ length p.now }
        ensures awake { (self.new.state.machine.asleep ≡ false) × (self.new.state.machine.marked ≡ false) }
        ensures lists { self.old.state.machine.stage ≡ Idle → (self.new.state.sent ≡ sent_by self.new.state.machine self.old.state.sent p.now) × (self.new.state.past ≡ past_of self.new.state.machine.ended self.new.state.machine.saw p.now self.old.state.past) }
        ensures stopped { self.old.state.machine.stage ≡ Stopped → (result ≡ Err (StoppedSend (why_of self.old.state.machine))) × (self.new ≡ self.old) }
        ensures honest { (u : Told) → S.told self.old.seat ≡ Some u → (self.old.state.machine.stage ≡ Idle) × (self.new.state.machine.stage ≡ Idle) × (is_honest_send result ≡ true) }
        ensures same { (S.same self.old.seat self.new.seat) × (self.new.state.machine.cells ≡ self.old.state.machine.cells) × (self.new.state.machine.side ≡ self.old.state.machine.side) }
        ensures kept { (self.new.state.got ≡ self.old.state.got) × (self.new.spare_got ≡ self.old.spare_got) }
        ensures count { self.new.state.pages.count ≡ self.old.state.pages.count }
        ensures pages { self.old.state.machine.stage ≡ Idle → self.new.state.pages ≡ cond (is_sent self.new.state.machine.ended) (pages_sent (layout self.old.state.pages.count) self.old.state.pages p.now) self.old.state.pages }
        ensures room { SentRoom self.new.state.machine.ended (length p.now + along self.old.state.pages p.now) self.old.spare_sent self.new.spare_sent }
    {
        self.lean.stands();
        if self.lean.is_stopped() {
            return Err(SendRefusal::Stopped {
                why: self.lean.why(),
            });
        }
        self.sent.has_places();
        let part = part_along(&self.lean, p);
        let answer = self.lean.send(p);
        self.lean.stands();
        let went = answer.is_ok();
        keep_sent(&mut self.sent, &self.lean, went, p, part);
        answer
    }

    /// Gives back the cells of all packets that were taken, and says whether that raised the signal of a producer that waits for room. At most 5
    /// steps. Source: Linux `drivers/hv/ring_buffer.c`, `hv_pkt_iter_close`.
    pub fn commit(&mut self) -> Signalled
        requires idle { self.old.state.machine.stage ≡ Idle }
        requires awake { self.old.state.machine.asleep ≡ false }
        requires unmarked { self.old.state.machine.marked ≡ false }
        requires clear { IsClear self.old.state.pages }
        ensures ran { MakesSteps S.told S.tale (commit_begun self.old.state.machine) [] self.old self.new }
        ensures answer { (result ≡ commit_answer self.new.state.machine.ended) × (call_by self.new.state.machine.ended ≡ Commit) }
        ensures leaves { Leaves self.old.state.machine self.new.state.machine }
        ensures after { LeavesBy Commit self.old.state.machine self.new.state.machine }
        ensures past { self.new.state.past ≡ past_of self.new.state.machine.ended self.new.state.machine.saw [] self.old.state.past }
        ensures same { S.same self.old.seat self.new.seat }
        ensures kept { Kept self.old self.new }
    {
        self.lean.stands();
        self.lean.commit()
    }

    /// Arms the signal and looks once more, for packets, for more room than `want` where there is one, and for the peer's mark. Work comes exactly
    /// where a look found something, or an index in no form; then nothing is armed. At most 7 steps.
    pub fn arm(&mut self, want: Option<u32>) -> Armed
        requires idle { self.old.state.machine.stage ≡ Idle }
        requires awake { self.old.state.machine.asleep ≡ false }
        requires unmarked { self.old.state.machine.marked ≡ false }
        requires committed { self.old.state.machine.start ≡ self.old.state.machine.read }
        requires want { IsWant self.old.state.machine.cells want }
        requires clear { IsClear self.old.state.pages }
        ensures ran { MakesSteps S.told S.tale (arm_begun self.old.state.machine (want_of want)) [] self.old self.new }
        ensures answer { (is_asleep result ≡ self.new.state.machine.asleep) × (call_by self.new.state.machine.ended ≡ Arm) }
        ensures leaves { Leaves self.old.state.machine self.new.state.machine }
        ensures after { LeavesBy Arm self.old.state.machine self.new.state.machine }
        ensures past { self.new.state.past ≡ past_of self.new.state.machine.ended self.new.state.machine.saw [] self.old.state.past }
        ensures same { S.same self.old.seat self.new.seat }
        ensures kept { Kept self.old self.new }
    {
        self.lean.stands();
        self.lean.arm(want)
    }

    /// Takes the signal of an end that is asleep. False comes exactly where it was down. After true the end is awake. At most 3 steps.
    pub fn poll_signal(&mut self) -> bool
        requires idle { self.old.state.machine.stage ≡ Idle }
        requires asleep { self.old.state.machine.asleep ≡ true }
        ensures ran { MakesSteps S.told S.tale (poll_begun self.old.state.machine) [] self.old self.new }
        ensures answer { (result ≡ not self.new.state.machine.asleep) × (call_by self.new.state.machine.ended ≡ Poll) }
        ensures leaves { Leaves self.old.state.machine self.new.state.machine }
        ensures after { LeavesBy Poll self.old.state.machine self.new.state.machine }
        ensures past { self.new.state.past ≡ past_of self.new.state.machine.ended self.new.state.machine.saw [] self.old.state.past }
        ensures same { S.same self.old.seat self.new.seat }
        ensures kept { Kept self.old self.new }
    {
        self.lean.stands();
        self.lean.poll_signal()
    }

    /// Says that this end sends nothing more, and raises the peer's signal: 2 steps. Afterwards it makes no call.
    pub fn mark(&mut self)
        requires idle { self.old.state.machine.stage ≡ Idle }
        requires awake { self.old.state.machine.asleep ≡ false }
        requires unmarked { self.old.state.machine.marked ≡ false }
        requires clear { IsClear self.old.state.pages }
        ensures ran { MakesSteps S.told S.tale (mark_begun self.old.state.machine) [] self.old self.new }
        ensures call { call_by self.new.state.machine.ended ≡ Mark }
        ensures leaves { Leaves self.old.state.machine self.new.state.machine }
        ensures after { LeavesBy Mark self.old.state.machine self.new.state.machine }
        ensures past { self.new.state.past ≡ past_of self.new.state.machine.ended self.new.state.machine.saw [] self.old.state.past }
        ensures same { S.same self.old.seat self.new.seat }
        ensures kept { Kept self.old self.new }
    {
        self.lean.stands();
        self.lean.mark();
    }

    /// Whether the peer said that it sends nothing more: 1 step.
    pub fn peer_mark(&mut self) -> bool
        requires idle { self.old.state.machine.stage ≡ Idle }
        requires awake { self.old.state.machine.asleep ≡ false }
        requires unmarked { self.old.state.machine.marked ≡ false }
        ensures ran { MakesSteps S.told S.tale (peer_mark_begun self.old.state.machine) [] self.old self.new }
        ensures answer { (result ≡ peer_mark_answer self.new.state.machine.ended) × (call_by self.new.state.machine.ended ≡ PeerMark) }
        ensures leaves { Leaves self.old.state.machine self.new.state.machine }
        ensures after { LeavesBy PeerMark self.old.state.machine self.new.state.machine }
        ensures past { self.new.state.past ≡ past_of self.new.state.machine.ended self.new.state.machine.saw [] self.old.state.past }
        ensures same { S.same self.old.seat self.new.seat }
        ensures kept { Kept self.old self.new }
    {
        self.lean.stands();
        self.lean.peer_mark()
    }

    /// Takes the first waiting packet into the list of those that were got: as `take`, but that it lends no words.
    pub fn take_in(&mut self) -> Result<(), TakeRefusal>
        requires awake { self.old.state.machine.asleep ≡ false }
        requires unmarked { self.old.state.machine.marked ≡ false }
        requires room { (0 < self.old.spare_got.packets) × (self.old.state.machine.cells ≤ self.old.spare_got.words) }
        requires clear { IsClear self.old.state.pages }
        ensures takes { Takes S S.told S.tale S.same self.old self.new (refused result) }
        ensures count { self.new.state.pages.count ≡ self.old.state.pages.count }
        ensures pages { self.old.state.machine.stage ≡ Idle → self.new.state.pages ≡ cond (is_took self.new.state.machine.ended) (pages_took (layout self.old.state.pages.count) self.old.state.pages (newest self.new.state.got)) self.old.state.pages }
        ensures took { refused result ≡ None → Gets self.new.state.machine.len self.old.state.got self.new.state.got self.old.state.past self.new.state.past }
    {
        self.lean.stands();
        if self.lean.is_stopped() {
            return Err(TakeRefusal::Stopped {
                why: self.lean.why(),
            });
        }
        self.got.has_places();
        let answer = self.lean.take();
        self.lean.stands();
        let went = answer.is_ok();
        keep_got(&mut self.got, &self.lean, went);
        answer
    }

    /// Stores a word of a page that this end has, or one of the lent words of a page that it holds: 1 step.
    pub fn page_store(&mut self, page: u32, word: u32, v: u64)
        requires idle { self.old.state.machine.stage ≡ Idle }
        requires unmarked { self.old.state.machine.marked ≡ false }
        requires may { MayStore (layout self.old.state.pages.count) self.old.state.machine.side self.old.state.pages page word }
        ensures ran { RanPages self.old.state self.new.state (StoreWord page word v) (S.told self.old.seat) (S.told self.new.seat) (S.tale self.old.seat) (S.tale self.new.seat) }
        ensures pages { self.new.state.pages ≡ page_stored self.old.state.pages page word v }
        ensures kept { KeptByPages self.old self.new × (self.new.spare_got ≡ self.old.spare_got) }
        ensures same { S.same self.old.seat self.new.seat }
    {
        self.lean.stands();
        self.lean.page_store(page, word, v);
    }

    /// The part of a page that goes along with a packet, if that is sent now: the page that is held under a completion's id, with all its words, and what any
    /// other packet names.
    pub fn part_of(&self, p: &[u64]) -> Option<Loan>
        requires packet { IsPacket p.now }
        ensures part { loans result ≡ part_in self.now.state.pages.owners p.now }
        ensures words { along self.now.state.pages p.now ≡ part_len result }
        ensures none { self.now.state.pages.count ≡ 0 → result ≡ None }
    {
        self.lean.part_of(p)
    }

    /// Stores words into the part of a page that goes along with a packet, from its first word on: one step a word. The send of that packet, if it comes next,
    /// lends or brings back these words, and behind them those that stood there.
    pub fn lay(&mut self, p: &[u64], words: &[u64])
        requires idle { self.old.state.machine.stage ≡ Idle }
        requires unmarked { self.old.state.machine.marked ≡ false }
        requires packet { IsPacket p.now }
        requires lends { MayLend self.old.state p.now }
        requires fits { length words.now ≤ along self.old.state.pages p.now }
        ensures pages { self.new.state.pages ≡ laid self.old.state.pages p.now words.now }
        ensures ran { (a : Lending) → part_in self.old.state.pages.owners p.now ≡ Some a → RanStores self.old.state self.new.state a.page words.now (S.told self.old.seat) (S.told self.new.seat) (S.tale self.old.seat) (S.tale self.new.seat) }
        ensures none { part_in self.old.state.pages.owners p.now ≡ None → self.new ≡ self.old }
        ensures kept { KeptByPages self.old self.new × (self.new.spare_got ≡ self.old.spare_got) }
        ensures same { S.same self.old.seat self.new.seat }
        ensures lends { MayLend self.new.state p.now }
        ensures along { along self.new.state.pages p.now ≡ along self.old.state.pages p.now }
        ensures words { self.new.state.pages.count ≢ 0 → take (length words.now) (last_words (pages_sent (layout self.new.state.pages.count) self.new.state.pages p.now).sent) ≡ words.now }
    {
        self.lean.stands();
        self.lean.lay(p, words);
    }

    /// Loads the page words that came with the packet that was taken last, and keeps them with it: as `lent_load`, but that it lends no words.
    pub fn load_in(&mut self)
        requires idle { self.old.state.machine.stage ≡ Idle }
        requires room { 512 ≤ self.old.spare_got.words }
        ensures loads { Loads S S.told S.tale S.same self.old self.new }
    {
        self.lean.stands();
        let part = self.lean.load();
        keep_words(&mut self.got, &self.lean, part);
    }

    // The page words of the item that was got last.
    pub(crate) fn last_lent(&self) -> &[u64]
        requires { 0 < length self.now.state.pages.got }
        ensures { result.now ≡ last_words self.now.state.pages.got }
    {
        self.got.last_lent()
    }

    // The words of the packet that was got last.
    pub(crate) fn last_got(&self) -> &[u64]
        requires { 0 < length self.now.state.got }
        ensures { self.now.state.got ≡ take (length self.now.state.got - 1) self.now.state.got ++ result.now ∷ [] }
    {
        self.got.last()
    }
}

impl End<SoloMem> {
    /// Exchanges the memories of two ends of one channel. So they can run by turns over one memory.
    pub fn swap_memory(&mut self, other: &mut End<SoloMem>)
        requires cells { self.old.state.machine.cells ≡ other.old.state.machine.cells }
        requires pages { self.old.state.pages.count ≡ other.old.state.pages.count }
        ensures this { self.new ≡ record self.old { seat = other.old.seat } }
        ensures that { other.new ≡ record other.old { seat = self.old.seat } }
    {
        self.lean.swap_memory(&mut other.lean);
    }
}
