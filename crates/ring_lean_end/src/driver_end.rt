//! One end of a channel that keeps no packet.
ghost use Rattle.std.specs.Prelude.{◌≡◌, ◌≢◌, ◌+◌, ◌/◌, ◌<◌, ◌≤◌, cond, true, false, not, [], length, Some, None, IfOk, OnErr, IsTrue, ◌↔◌};
ghost use Rattle.page_kept.specs.Kept.{no_pages};
ghost use Rattle.ring_machine.specs.Endings.{refused, send_answer, take_refusal, commit_answer, is_asleep, want_of, IsWant};
ghost use Rattle.ring_machine.specs.Places.{IsRingSize};
ghost use Rattle.ring_machine.specs.States.{IsPacket, resting};
ghost use Rattle.ring_machine.specs.Steps.{is_took, machine_new, send_begun, take_begun, commit_begun, arm_begun, poll_begun, mark_begun};
ghost use Rattle.ring_machine.specs.declared.last.Why.{Why as WhyOne};
ghost use Rattle.ring_core.specs.declared.told.Told.{Told};
ghost use Rattle.ring_core.specs.Driven.{broken, IsAwakeEnd, MakesSteps, sent_by_answer, found_by_send, left_by_send, LacksRoom, got_by_answer, found_by_take, left_by_take};

use ring_core::{Armed, LeanEnd, Seatlike, SendRefusal, Side, Signalled, TakeRefusal, Why};
use std::alloc::{AllocError, Global};
use std::marker::Model;

/// One end of a channel. It has the memory of one packet, whatever it sends and gets. Contracts see its state, in which `sent` and `got` are the packets so
/// far and `broken` why it makes no step any more; its seat; and the words of the packet that its last take gave.
#[derive(Drop)]
pub struct DriverEnd<S: Seatlike> {
    end: LeanEnd<S>,
    ghost bare: { end.driven.state.pages ≡ no_pages },
}

impl<S: Seatlike> Model for DriverEnd<S> {
    ghost use Rattle.ring_core.specs.Driven.{Driven};

    ghost Value = { Driven S };

    ghost view = { λ e. e.end.driven };
}

impl<S: Seatlike> DriverEnd<S> {
    /// A new end of a channel whose rings have `d` bytes of data. It takes memory for one packet of `d / 8` words, and no call takes more.
    pub fn make(alloc: Global, side: Side, d: u32, seat: S) -> Result<DriverEnd<S>, AllocError>
    where
        S: Drop,
        requires size { IsRingSize d }
        requires seat { S.cells seat ≡ d / 8 }
        requires told { (u : Told) → S.told seat ≡ Some u → u.state ≡ resting (machine_new side (d / 8)) [] [] [] }
        ensures { IfOk result (λ e. (e.state ≡ resting (machine_new side (d / 8)) [] [] []) × (e.seat ≡ seat) × (e.taken ≡ [])) }
    {
        let end = LeanEnd::make(alloc, side, d, seat, 0)?;
        Ok(DriverEnd { end })
    }

    /// Why the end is broken, where it is. A broken end refuses each send and take with this, and makes no step.
    pub fn broken(&self) -> Option<Why>
        ensures { result ≡ broken self.now.state }
    {
        self.end.broken()
    }

    /// Whether a packet of so many words fits into the ring, which is never quite full.
    pub fn fits(&self, len: u32) -> bool
        ensures { IsTrue result ↔ (len + 1 < self.now.state.machine.cells) }
    {
        self.end.fits(len)
    }

    /// Whether the end is asleep: its next call is a poll.
    pub fn is_asleep(&self) -> bool
        ensures { result ≡ self.now.state.machine.asleep }
    {
        self.end.is_asleep()
    }

    /// Whether the end said that it sends nothing more: it makes no call any more.
    pub fn is_marked(&self) -> bool
        ensures { result ≡ self.now.state.machine.marked }
    {
        self.end.is_marked()
    }

    /// The words of the packet that the last take gave, as they were copied. There are none where it was refused.
    pub fn taken(&self) -> &[u64]
        ensures { result.now ≡ self.now.taken }
    {
        self.end.taken()
    }

    /// The seat.
    pub fn seat(&self) -> &S
        ensures { result.now ≡ self.now.seat }
    {
        self.end.seat()
    }

    /// Sends a packet that fits: it goes, and the answer says whether that raised the peer's signal; or it waits for room, with the free bytes and those that
    /// it needs; or the end breaks at a read index in no form, or was broken. At most n + 6 steps for n words. Source: Linux
    /// `drivers/hv/ring_buffer.c`, `hv_ringbuffer_write`.
    pub fn send(&mut self, p: &[u64]) -> Result<Signalled, SendRefusal>
        requires awake { IsAwakeEnd self.old.state }
        requires packet { IsPacket p.now × (length p.now + 1 < self.old.state.machine.cells) }
        ensures sent { self.new.state.sent ≡ sent_by_answer result p.now self.old.state.sent }
        ensures got { (self.new.state.got ≡ self.old.state.got) × (self.new.taken ≡ self.old.taken) }
        ensures room { LacksRoom (length p.now) result }
        ensures broken { (broken self.old.state ≡ found_by_send result) × (broken self.new.state ≡ left_by_send result) }
        ensures ran { (broken self.old.state ≡ None → (result ≡ send_answer self.new.state.machine.ended self.new.state.machine) × MakesSteps S.told S.tale (send_begun self.old.state.machine (length p.now)) p.now self.old self.new) × ((why : WhyOne) → broken self.old.state ≡ Some why → self.new ≡ self.old) }
        ensures same { S.same self.old.seat self.new.seat × IsAwakeEnd self.new.state × (self.new.state.machine.cells ≡ self.old.state.machine.cells) × (self.new.state.machine.start ≡ self.old.state.machine.start) × (self.new.state.machine.read ≡ self.old.state.machine.read) }
    {
        self.end.send(p)
    }

    /// Takes the first packet that waits, whose words `taken` gives; or none waits; or the end breaks at an index or a packet in no form, or was broken.
    /// Behind a refusal `taken` gives no words, neither of the packet that was refused nor of an earlier one. At most n + 1 steps for n words. Source: Linux
    /// `drivers/hv/ring_buffer.c`, `hv_pkt_iter_first`.
    pub fn take(&mut self) -> Result<(), TakeRefusal>
        requires awake { IsAwakeEnd self.old.state }
        ensures got { (self.new.state.got ≡ got_by_answer (refused result) self.new.taken self.old.state.got) × (refused result ≡ None → IsPacket self.new.taken) }
        ensures taken { OnErr result (self.new.taken ≡ []) }
        ensures sent { self.new.state.sent ≡ self.old.state.sent }
        ensures broken { (broken self.old.state ≡ found_by_take (refused result)) × (broken self.new.state ≡ left_by_take (refused result)) }
        ensures ran { (broken self.old.state ≡ None → (refused result ≡ cond (is_took self.new.state.machine.ended) None (Some (take_refusal self.new.state.machine.ended self.new.state.machine))) × MakesSteps S.told S.tale (take_begun self.old.state.machine) [] self.old self.new) × ((why : WhyOne) → broken self.old.state ≡ Some why → self.new ≡ record self.old { taken = [] }) }
        ensures same { S.same self.old.seat self.new.seat × IsAwakeEnd self.new.state × (self.new.state.machine.cells ≡ self.old.state.machine.cells) }
    {
        self.end.take()
    }

    /// Gives back the room of all packets that were taken, and says whether that raised a producer that waits for room. At most 5 steps. Source: Linux
    /// `drivers/hv/ring_buffer.c`, `hv_pkt_iter_close`.
    pub fn commit(&mut self) -> Signalled
        requires awake { IsAwakeEnd self.old.state }
        requires whole { broken self.old.state ≡ None }
        ensures room { (self.new.state.machine.start ≡ self.old.state.machine.read) × (self.new.state.machine.read ≡ self.old.state.machine.read) }
        ensures sent { self.new.state.sent ≡ self.old.state.sent }
        ensures got { (self.new.state.got ≡ self.old.state.got) × (self.new.taken ≡ self.old.taken) }
        ensures broken { broken self.new.state ≡ None }
        ensures ran { (result ≡ commit_answer self.new.state.machine.ended) × MakesSteps S.told S.tale (commit_begun self.old.state.machine) [] self.old self.new }
        ensures same { S.same self.old.seat self.new.seat × IsAwakeEnd self.new.state × (self.new.state.machine.cells ≡ self.old.state.machine.cells) }
    {
        self.end.commit()
    }

    /// Arms the signal and looks once more, for packets, for more room than `want` bytes where there is one, and for the peer's mark. Work comes exactly
    /// where a look found something, or an index in no form. Otherwise the end is asleep, and polls next. At most 7 steps.
    pub fn arm(&mut self, want: Option<u32>) -> Armed
        requires awake { IsAwakeEnd self.old.state }
        requires whole { broken self.old.state ≡ None }
        requires room { self.old.state.machine.start ≡ self.old.state.machine.read }
        requires want { IsWant self.old.state.machine.cells want }
        ensures asleep { (self.new.state.machine.asleep ≡ is_asleep result) × (self.new.state.machine.marked ≡ false) }
        ensures sent { self.new.state.sent ≡ self.old.state.sent }
        ensures got { (self.new.state.got ≡ self.old.state.got) × (self.new.taken ≡ self.old.taken) }
        ensures broken { broken self.new.state ≡ None }
        ensures ran { MakesSteps S.told S.tale (arm_begun self.old.state.machine (want_of want)) [] self.old self.new }
        ensures same { S.same self.old.seat self.new.seat × (self.new.state.machine.cells ≡ self.old.state.machine.cells) × (self.new.state.machine.start ≡ self.new.state.machine.read) }
    {
        self.end.arm(want)
    }

    /// Takes the signal of an end that is asleep. False comes exactly where it was down. After true the end is awake. At most 3 steps.
    pub fn poll_signal(&mut self) -> bool
        requires asleep { (self.old.state.machine.asleep ≡ true) × (self.old.state.machine.marked ≡ false) }
        requires whole { broken self.old.state ≡ None }
        ensures asleep { (self.new.state.machine.asleep ≡ not result) × (self.new.state.machine.marked ≡ false) }
        ensures sent { self.new.state.sent ≡ self.old.state.sent }
        ensures got { (self.new.state.got ≡ self.old.state.got) × (self.new.taken ≡ self.old.taken) }
        ensures broken { broken self.new.state ≡ None }
        ensures ran { MakesSteps S.told S.tale (poll_begun self.old.state.machine) [] self.old self.new }
        ensures same { S.same self.old.seat self.new.seat × (self.new.state.machine.cells ≡ self.old.state.machine.cells) × (self.new.state.machine.start ≡ self.old.state.machine.start) × (self.new.state.machine.read ≡ self.old.state.machine.read) }
    {
        self.end.poll_signal()
    }

    /// Says that this end sends nothing more, and raises the peer's signal: 2 steps. Afterwards it makes no call.
    pub fn mark(&mut self)
        requires awake { IsAwakeEnd self.old.state }
        requires whole { broken self.old.state ≡ None }
        ensures marked { self.new.state.machine.marked ≡ true }
        ensures sent { self.new.state.sent ≡ self.old.state.sent }
        ensures got { (self.new.state.got ≡ self.old.state.got) × (self.new.taken ≡ self.old.taken) }
        ensures broken { broken self.new.state ≡ None }
        ensures ran { MakesSteps S.told S.tale (mark_begun self.old.state.machine) [] self.old self.new }
        ensures same { S.same self.old.seat self.new.seat × (self.new.state.machine.cells ≡ self.old.state.machine.cells) }
    {
        self.end.mark();
    }

    /// The seat, at the end. Where the seat tells its end's state, that is this end's.
    pub fn into_seat(self) -> S
        ensures seat { result ≡ self.seat }
        ensures told { (u : Told) → S.told result ≡ Some u → u.state ≡ self.state }
    {
        let DriverEnd { end } = self;
        end.into_seat()
    }
}
