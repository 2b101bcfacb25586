//! Calls over solo memory, beside answers that were worked out by hand.
ghost use Rattle.std.specs.Prelude.{◌≡◌, []};
ghost use Rattle.ring_machine.specs.Steps.{machine_new};
ghost use Rattle.ring_machine.specs.States.{resting};

use crate::check::check;
use ring_core::{Armed, End, Side, SoloMem};
use std::alloc::AllocGlobal;
use std::process::Abort;

// An end of a new channel of one page, over a memory of its own.
fn end(rt: &(impl Abort + AllocGlobal), side: Side) -> End<SoloMem>
    ensures { result.state ≡ resting (machine_new side 512) [] [] [] }
{
    let solo = SoloMem::make(rt.alloc(), 4096, 0).expect(rt, "memory");
    End::make(rt.alloc(), side, 4096, solo, 0).expect(rt, "memory")
}

// An end that arms its signal, and how the arm ended: its outgoing ring has room, so it doesn't sleep.
#[test]
fn an_end_with_room_stays_awake(rt: HostRuntime) {
    let mut e = end(&rt, Side::Host);
    check(&rt, e.arm(Some(24)) == Armed::Work);
    check(&rt, e.is_ready());
    drop(e);
}

// The other end marks itself in the memory of this one.
fn marks_in(rt: &impl Abort, e: &mut End<SoloMem>, mut other: End<SoloMem>)
    requires cells { e.old.state.machine.cells ≡ other.state.machine.cells }
    requires pages { e.old.state.pages.count ≡ other.state.pages.count }
    ensures { e.new.state ≡ e.old.state }
{
    e.swap_memory(&mut other);
    check(rt, other.is_ready() && !other.is_due());
    other.mark();
    check(
        rt,
        e.cells() == other.cells() && e.pages() == other.pages() && other.is_marked(),
    );
    e.swap_memory(&mut other);
    drop(other);
}

// Its signal is down before its peer marks itself, and up after it.
#[test]
fn an_end_sleeps_till_its_peer_marks_itself(rt: HostRuntime) {
    let mut e = end(&rt, Side::Host);
    check(&rt, e.arm(None) == Armed::Asleep);
    check(&rt, e.is_asleep());
    check(&rt, !e.poll_signal());
    check(&rt, e.is_asleep());
    marks_in(&rt, &mut e, end(&rt, Side::Guest));
    check(&rt, e.poll_signal());
    check(&rt, e.is_ready());
    let (_, sent, got) = e.into_parts();
    check(&rt, sent.len() == 0 && got.len() == 0);
}
