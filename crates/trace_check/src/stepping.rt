//! A step of an end on the words of its channel.
ghost use Rattle.std.specs.Prelude.{◌≡◌, ◌<◌, ◌≤◌, ◌+◌, ℕ, true, List, MatchOption, Some};
ghost use Rattle.ring_machine.specs.declared.state.EndState.{EndState};
ghost use Rattle.ring_machine.specs.Inside.{IsOpOf};
ghost use Rattle.ring_machine.specs.Steps.{next_of};
ghost use Rattle.ring_machine.specs.States.{after};
ghost use Rattle.ring_core.specs.Told.{written, answer_in};
ghost use Rattle.trace_check.specs.Watching.{IsEnd, StepRefused};

use crate::watched::Watched;
use ring_core::{Op, Place, SoloMem, stays_inside};
use trace_model::WrongWhy;

/// What a step of a channel answers on its words as they are.
fn answer(mem: &SoloMem, op: Op) -> u64
    requires { IsOpOf mem.now.cells mem.now.pages op }
    ensures { result ≡ answer_in mem.now.cells op mem.now.memory.words }
{
    match op {
        Op::Load(place) => mem.look(place),
        Op::TakeSignal(side) => mem.look(Place::Signal(side)),
        Op::Store(..) | Op::Raise(_) | Op::StoreMark(_) => 0,
    }
}

/// Changes the words as the step does.
fn write(mem: &mut SoloMem, op: Op)
    requires { IsOpOf mem.old.cells mem.old.pages op }
    ensures words { mem.new.memory.words ≡ written mem.old.cells op mem.old.memory.words }
    ensures cells { mem.new.cells ≡ mem.old.cells }
    ensures pages { mem.new.pages ≡ mem.old.pages }
{
    match op {
        Op::Load(_) => {}
        Op::Store(place, v) => mem.put(place, v),
        Op::Raise(side) => mem.put(Place::Signal(side), 1),
        Op::TakeSignal(side) => mem.put(Place::Signal(side), 0),
        Op::StoreMark(side) => mem.put(Place::Mark(side), 1),
    }
}

/// Makes the step that a line says, where it is the end's next one and answers what the line says. Or says why not, in the order of the reasons: no call is under
/// way, another step is next, or its word has another value.
pub(crate) fn step(mem: &mut SoloMem, end: &mut Watched, op: Op, v: u64) -> Option<WrongWhy>
    requires cells { mem.old.cells ≡ end.old.core.machine.cells }
    requires pages { mem.old.pages ≡ 0 }
    requires few { end.old.steps < 4294967295 }
    ensures leads { (e : EndState) → IsEnd end.old e → MatchOption result
        ((next_of e.machine e.packet ≡ Some op) × (answer_in e.machine.cells op mem.old.memory.words ≡ v) × IsEnd end.new (after e v) × (mem.new.memory.words ≡ written e.machine.cells op mem.old.memory.words))
        (λ why. StepRefused why op v e mem.old.memory.words × IsEnd end.new e × (mem.new.memory.words ≡ mem.old.memory.words)) }
    ensures cells { end.new.core.machine.cells ≡ end.old.core.machine.cells }
    ensures memory { (mem.new.cells ≡ mem.old.cells) × (mem.new.pages ≡ mem.old.pages) }
    ensures steps { MatchOption result (end.new.steps ≡ end.old.steps + 1) (λ why. end.new.steps ≡ end.old.steps) }
{
    if !end.core.is_busy() {
        return Some(WrongWhy::Idle);
    }
    if end.core.next(end.packet.as_slice()) != Some(op) {
        return Some(WrongWhy::Step);
    }
    stays_inside(&end.core, end.packet.as_slice());
    if answer(mem, op) != v {
        return Some(WrongWhy::Value);
    }
    write(mem, op);
    end.feed(v);
    None
}
