//! The end under test.
ghost use Rattle.std.specs.Prelude.{◌≡◌, ◌≤◌, ◌<◌, ◌+◌, ◌*◌, ◌/◌, ◌%◌, ◌++◌, ◌&&◌, not, OnOk, IfOk, vec_len, true, false, slice_index};
ghost use Rattle.ring_machine.specs.Places.{IsRingSize, index_of};
ghost use Rattle.ring_machine.specs.PageCalls.{newest};
ghost use Rattle.ring_machine.specs.declared.place.Place.TheVariants.{Cell as CellAt};
ghost use Rattle.ring_machine.specs.declared.machine.Stage.TheVariants.{Idle};
ghost use Rattle.ring_core.specs.Told.{pair};
ghost use Rattle.hostile_lines.specs.Ranges.{IsCallIn};
ghost use Rattle.hostile_lines.specs.declared.command.EndCall.TheVariants.{Send as SendCall, Take as TakeCall, Commit as CommitCall, Arm as ArmCall, Poll as PollCall};
ghost use Rattle.hostile_honest_end.specs.Calls.{new_guest, is_idle, comes_of, Leads, said_of};

use crate::packet::in_band;
use crate::text::{push, push_armed, push_committed, push_polled, push_sent, push_took};
use hostile_lines::EndCall;
use ring_core::{End, Room, ToldMem};
use ring_machine::{Place, Ring, Side};
use std::alloc::{AllocError, Global};
use std::marker::Model;

/// A guest's end of a channel without data pages, over words that a peer changes. Contracts see its state and the memory.
#[derive(Drop)]
pub struct TestedEnd {
    end: End<ToldMem>,
}

impl Model for TestedEnd {
    ghost use Rattle.ring_core.specs.Told.{Pair, pair};
    ghost use Rattle.hostile_honest_end.specs.Tested.{IsTested};

    ghost Value = { Pair };

    ghost view = { λ e. pair e.end.state e.end.seat.memory };

    ghost invariant = { λ e. IsTested e.end };
}

const NOTHING: Room = Room {
    packets: 0,
    words: 0,
};

impl TestedEnd {
    /// A new end, over the words of a channel whose rings have `d` bytes of data.
    pub fn make(alloc: Global, d: u32, mem: ToldMem) -> Result<TestedEnd, AllocError>
        requires size { IsRingSize d × (d ≤ 65536) }
        requires mem { (mem.cells ≡ d / 8) × (mem.pages ≡ 0) }
        ensures { IfOk result (λ e. e ≡ pair (new_guest (d / 8)) mem.memory) }
    {
        let end = End::make(alloc, Side::Guest, d, mem, 0)?;
        Ok(TestedEnd { end })
    }

    /// How many steps were made.
    pub fn steps(&self) -> u64
        ensures { result ≡ self.now.memory.steps }
    {
        self.end.seat().steps()
    }

    /// The cell of a ring at this byte offset. It makes no step.
    pub fn cell(&self, ring: Ring, at: u32) -> u64
        requires { (at % 8 ≡ 0) × (at < 8 * self.now.state.machine.cells) }
        ensures { result ≡ slice_index self.now.memory.words (index_of self.now.state.machine.cells (CellAt ring at)) }
    {
        self.end.seat().look(Place::Cell(ring, at))
    }

    // Whether it can begin a send, a take, a commit, and where all is committed an arm.
    fn is_awake(&self) -> bool
        ensures value { result ≡ (is_idle self.now.state.machine.stage && not self.now.state.machine.asleep) }
        ensures idle { result ≡ true → self.now.state.machine.stage ≡ Idle }
    {
        self.end.is_ready()
    }

    fn send(&mut self, alloc: Global, len: u32, text: &mut Vec<u8>) -> Result<(), AllocError>
        requires { IsCallIn (8 * self.old.state.machine.cells) (SendCall len) }
        ensures leads { OnOk result (Leads (comes_of (SendCall len) self.old.state.machine) self.old self.new) }
        ensures says { OnOk result (text.new.items ≡ text.old.items ++ said_of (comes_of (SendCall len) self.old.state.machine) self.new) }
        ensures cells { self.new.state.machine.cells ≡ self.old.state.machine.cells }
        ensures short { OnOk result (vec_len text.new ≤ vec_len text.old + 140000) }
    {
        if self.end.is_asleep() {
            return push(text, b"refused");
        }
        if !self.is_awake() {
            return push(text, b"stopped");
        }
        let packet = in_band(alloc, len)?;
        let room = Room {
            packets: 1,
            words: u64::from(len),
        };
        self.end.reserve(room, NOTHING)?;
        push_sent(text, self.end.send(&packet))
    }

    fn take(&mut self, text: &mut Vec<u8>) -> Result<(), AllocError>
        ensures leads { OnOk result (Leads (comes_of TakeCall self.old.state.machine) self.old self.new) }
        ensures says { OnOk result (text.new.items ≡ text.old.items ++ said_of (comes_of TakeCall self.old.state.machine) self.new) }
        ensures cells { self.new.state.machine.cells ≡ self.old.state.machine.cells }
        ensures short { OnOk result (vec_len text.new ≤ vec_len text.old + 140000) }
    {
        if self.end.is_asleep() {
            return push(text, b"refused");
        }
        if !self.is_awake() {
            return push(text, b"stopped");
        }
        let room = Room {
            packets: 1,
            words: u64::from(self.end.cells()),
        };
        self.end.reserve(NOTHING, room)?;
        let answer = self.end.take_in();
        self.end.stands_inside();
        push_took(text, answer, last(&self.end))
    }

    #[tactic(auto, using(crate::proofs::Made::made))]
    fn commit(&mut self, text: &mut Vec<u8>) -> Result<(), AllocError>
        ensures leads { OnOk result (Leads (comes_of CommitCall self.old.state.machine) self.old self.new) }
        ensures says { OnOk result (text.new.items ≡ text.old.items ++ said_of (comes_of CommitCall self.old.state.machine) self.new) }
        ensures cells { self.new.state.machine.cells ≡ self.old.state.machine.cells }
        ensures short { OnOk result (vec_len text.new ≤ vec_len text.old + 140000) }
    {
        if !self.is_awake() {
            return push(text, b"refused");
        }
        push_committed(text, self.end.commit())
    }

    #[tactic(auto, using(crate::proofs::Made::made))]
    fn arm(&mut self, want: Option<u32>, text: &mut Vec<u8>) -> Result<(), AllocError>
        requires { IsCallIn (8 * self.old.state.machine.cells) (ArmCall want) }
        ensures leads { OnOk result (Leads (comes_of (ArmCall want) self.old.state.machine) self.old self.new) }
        ensures says { OnOk result (text.new.items ≡ text.old.items ++ said_of (comes_of (ArmCall want) self.old.state.machine) self.new) }
        ensures cells { self.new.state.machine.cells ≡ self.old.state.machine.cells }
        ensures short { OnOk result (vec_len text.new ≤ vec_len text.old + 140000) }
    {
        if !self.is_awake() || !self.end.has_committed() {
            return push(text, b"refused");
        }
        push_armed(text, self.end.arm(want))
    }

    #[tactic(auto, using(crate::proofs::Made::made))]
    fn poll(&mut self, text: &mut Vec<u8>) -> Result<(), AllocError>
        ensures leads { OnOk result (Leads (comes_of PollCall self.old.state.machine) self.old self.new) }
        ensures says { OnOk result (text.new.items ≡ text.old.items ++ said_of (comes_of PollCall self.old.state.machine) self.new) }
        ensures cells { self.new.state.machine.cells ≡ self.old.state.machine.cells }
        ensures short { OnOk result (vec_len text.new ≤ vec_len text.old + 140000) }
    {
        if !self.end.is_asleep() {
            return push(text, b"refused");
        }
        push_polled(text, self.end.poll_signal())
    }

    /// Makes the call, where its condition holds, and puts behind the text what it came to.
    ///
    /// Errors: there was want of memory.
    pub fn call(
        &mut self,
        alloc: Global,
        call: EndCall,
        text: &mut Vec<u8>,
    ) -> Result<(), AllocError>
        requires { IsCallIn (8 * self.old.state.machine.cells) call }
        ensures leads { OnOk result (Leads (comes_of call self.old.state.machine) self.old self.new) }
        ensures says { OnOk result (text.new.items ≡ text.old.items ++ said_of (comes_of call self.old.state.machine) self.new) }
        ensures cells { self.new.state.machine.cells ≡ self.old.state.machine.cells }
        ensures short { OnOk result (vec_len text.new ≤ vec_len text.old + 140000) }
    {
        match call {
            EndCall::Send(len) => self.send(alloc, len, text),
            EndCall::Take => self.take(text),
            EndCall::Commit => self.commit(text),
            EndCall::Arm(want) => self.arm(want, text),
            EndCall::Poll => self.poll(text),
        }
    }
}

// The packet that an end got last.
fn last(end: &End<ToldMem>) -> &[u64]
    ensures { result.now ≡ newest end.now.state.got }
{
    let got = end.got();
    match got.get(got.len().wrapping_sub(1)) {
        Some(packet) => packet,
        None => &[],
    }
}
