//! The machine of an end, and its numbers.
ghost use Rattle.std.specs.Prelude.{◌≡◌, ◌<◌, None, IfSome};
ghost use Rattle.ring_machine.specs.PageCalls.{core_pages};
ghost use Rattle.vmbus_ring_c.specs.Ends.{IsEnd, machine_of};

use crate::end::VmbusEnd;
use crate::numbers::{
    ending, ending_number, flag, flag_number, side, side_number, stage, stage_number,
};
use crate::sound::is_sound;
use ring_machine::{EndCore, EndMachine, PageCore};

// The machine with these numbers.
fn machine(end: &VmbusEnd) -> EndMachine
    requires { end.now.stage < 29 }
    ensures { result ≡ machine_of end.now }
{
    EndMachine {
        cells: end.cells,
        write: end.write,
        read: end.read,
        start: end.start,
        old: end.before,
        seen: end.seen,
        len: end.len,
        done: end.done,
        value: end.value,
        want: end.want,
        room: end.room,
        words: end.words,
        side: side(end.side),
        stage: stage(end.stage),
        ended: ending(end.ended),
        masked: flag(end.masked),
        asleep: flag(end.asleep),
        marked: flag(end.marked),
        peer_marked: flag(end.peer_marked),
        drained: flag(end.drained),
        saw: flag(end.saw),
    }
}

// The end with these numbers, where they are those of one.
pub(crate) fn core(end: &VmbusEnd) -> Option<EndCore>
    ensures some { IfSome result (λ c. IsEnd end.now × (c.machine ≡ machine_of end.now) × (c.pages ≡ core_pages 0)) }
    ensures none { result ≡ None → IsEnd end.now → ⊥ }
{
    if end.stage >= 29 {
        return None;
    }
    let machine = machine(end);
    if !is_sound(&machine) {
        return None;
    }
    Some(EndCore {
        machine,
        pages: PageCore::new(0),
    })
}

// Its numbers.
#[tactic(auto, using(crate::proofs::Back::machine_back))]
pub(crate) fn numbers(core: &EndCore) -> VmbusEnd
    ensures machine { machine_of result ≡ core.now.machine }
    ensures end { IsEnd result }
{
    let m = core.machine;
    VmbusEnd {
        cells: m.cells,
        write: m.write,
        read: m.read,
        start: m.start,
        before: m.old,
        seen: m.seen,
        len: m.len,
        done: m.done,
        value: m.value,
        want: m.want,
        room: m.room,
        words: m.words,
        side: side_number(m.side),
        stage: stage_number(m.stage),
        ended: ending_number(m.ended),
        masked: flag_number(m.masked),
        asleep: flag_number(m.asleep),
        marked: flag_number(m.marked),
        peer_marked: flag_number(m.peer_marked),
        drained: flag_number(m.drained),
        saw: flag_number(m.saw),
    }
}
