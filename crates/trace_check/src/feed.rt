//! An end of a trace takes what its step gave.
ghost use Rattle.std.specs.Prelude.{◌≡◌, ◌≤◌, ◌<◌, ◌+◌, ℕ, true};
ghost use Rattle.ring_machine.specs.declared.state.EndState.{EndState};
ghost use Rattle.ring_machine.specs.Steps.{is_busy_at};
ghost use Rattle.ring_machine.specs.States.{after};
ghost use Rattle.trace_check.specs.Watching.{IsEnd, sends_at, gets_at};

use crate::watched::Watched;
use ring_core::{EndCore, Stage};

// The packets that a step at this stage sends: one at the store of the write index.
fn sends_at(stage: Stage) -> u32
    ensures value { result ≡ sends_at stage }
    ensures most { result ≤ 1 }
{
    match stage {
        Stage::SendWrite => 1,
        _ => 0,
    }
}

// The packets that the next step gets: one at the last load of its words.
fn gets_at(core: &EndCore) -> u32
    ensures value { result ≡ gets_at core.now.machine.stage core.now.machine }
    ensures most { result ≤ 1 }
{
    let m = &core.machine;
    match m.stage {
        Stage::TakeCell => { if m.done + 1 < m.len { 0 } else { 1 } }
        _ => 0,
    }
}

impl Watched {
    /// Takes that the next step gave this.
    pub(crate) fn feed(&mut self, v: u64)
        requires busy { is_busy_at self.old.core.machine.stage ≡ true }
        requires few { self.old.steps < 4294967295 }
        ensures after { (e : EndState) → IsEnd self.old e → IsEnd self.new (after e v) }
        ensures cells { self.new.core.machine.cells ≡ self.old.core.machine.cells }
        ensures steps { self.new.steps ≡ self.old.steps + 1 }
    {
        self.sent += sends_at(self.core.machine.stage);
        self.got += gets_at(&self.core);
        self.steps += 1;
        self.core.feed(v);
        if !self.core.is_busy() {
            self.packet.clear();
        }
    }
}
