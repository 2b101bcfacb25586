//! Sleeping until the peer raises the signal.
ghost use Rattle.std.specs.Prelude.{◌≡◌, true, false, not};
ghost use Rattle.ring_machine.specs.declared.machine.Stage.TheVariants.{Idle};
ghost use Rattle.ring_end_history.specs.Calls.{Came};
ghost use Rattle.ring_sleep.specs.Sleeping.{Sleeps};

use crate::parks::Parks;
use crossbeam_utils::Backoff;
use ring_core::End;
use std::sync::Wait;

/// Waits until the signal of an end that is asleep was up, and takes it. When it returns the end is awake, and did nothing else. It polls, and parks its thread
/// between two polls once it has spun for a while. That a signal comes isn't promised.
pub fn sleep<S: Parks, R: Wait>(e: &mut End<S>, rt: &R)
    requires idle { e.old.state.machine.stage ≡ Idle }
    requires asleep { e.old.state.machine.asleep ≡ true }
    ensures awake { (e.new.state.machine.asleep ≡ false) × (e.new.state.machine.marked ≡ false) }
    ensures slept { Sleeps S.channel S.told e.old e.new }
    ensures came { Came S.tale e.old e.new }
{
    let backoff = Backoff::new();
    for _ in rt.forever() {
        if poll(e) {
            return;
        }
        if backoff.is_completed() {
            e.seat().park(rt);
        } else {
            backoff.snooze();
        }
    }
    unreachable!()
}

// One poll of an end that is asleep.
fn poll<S: Parks>(e: &mut End<S>) -> bool
    requires idle { e.old.state.machine.stage ≡ Idle }
    requires asleep { e.old.state.machine.asleep ≡ true }
    ensures asleep { e.new.state.machine.asleep ≡ not result }
    ensures unmarked { e.new.state.machine.marked ≡ false }
    ensures slept { Sleeps S.channel S.told e.old e.new }
    ensures came { Came S.tale e.old e.new }
{
    e.poll_signal()
}
