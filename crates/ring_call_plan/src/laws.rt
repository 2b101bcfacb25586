//! Laws of plans: each function does nothing, and its contract is a law.
ghost use Rattle.std.specs.Prelude.{◌≡◌, ◌≢◌, ℕ, List, [], length, slice_index, true, false};
ghost use Rattle.ring_machine.specs.declared.machine.EndMachine.{EndMachine};
ghost use Rattle.ring_machine.specs.declared.machine.Stage.TheVariants.{Idle};
ghost use Rattle.ring_machine.specs.declared.state.EndState.{EndState};
ghost use Rattle.ring_machine.specs.Places.{len8_of};
ghost use Rattle.ring_machine.specs.States.{afters, Begins};
ghost use Rattle.ring_machine.specs.Steps.{IsSound, send_begun, take_begun, commit_begun, arm_begun, poll_begun, mark_begun};
ghost use Rattle.ring_call_plan.specs.declared.end.PlanEnd.{PlanEnd as AnEnd};
ghost use Rattle.ring_call_plan.specs.Answers.{no_call};
ghost use Rattle.ring_call_plan.specs.Numbers.{is_at, is_formed, begin_says, take_says, commit_says, arm_says, polled_says};
ghost use Rattle.ring_call_plan.specs.Shown.{Shows, feds, AtRest};

/// The machine that a plan speaks of is that of the end's whole state after the same answers.
pub fn feeds_the_state()
    ensures { (s : EndState) (vs : List ℕ) → (afters s vs).machine ≡ feds s.machine vs }
{}

/// An end that shows a sound machine is in form. So no call of such an end is refused but for its state, or for what it is given.
pub fn shows_in_form()
    ensures form { (e : AnEnd) (m : EndMachine) → IsSound m → Shows e m → is_formed e ≡ true }
    ensures idle { (e : AnEnd) (m : EndMachine) → IsSound m → Shows e m → m.stage ≡ Idle → m.asleep ≡ false → m.marked ≡ false → is_at 0 e ≡ true }
{}

/// What isn't refused begins a call of the whole state, in the words of which all that is proved of channels is said: a send of a packet whose first word was
/// given, a take, a commit, an arm, a poll and a mark.
pub fn begins_the_calls()
    ensures send { (e : AnEnd) (s : EndState) (p : List ℕ) (v : ℕ) → Shows e s.machine → AtRest s → begin_says e (slice_index p 0) v ≢ no_call → length p ≡ len8_of (slice_index p 0) → Begins s (send_begun s.machine (length p)) p }
    ensures take { (e : AnEnd) (s : EndState) (v : ℕ) → Shows e s.machine → AtRest s → take_says e v ≢ no_call → Begins s (take_begun s.machine) [] }
    ensures commit { (e : AnEnd) (s : EndState) → Shows e s.machine → AtRest s → commit_says e ≢ no_call → Begins s (commit_begun s.machine) [] }
    ensures arm { (e : AnEnd) (s : EndState) (want : ℕ) → Shows e s.machine → AtRest s → arm_says e want ≢ no_call → Begins s (arm_begun s.machine want) [] }
    ensures poll { (e : AnEnd) (s : EndState) (v : ℕ) → Shows e s.machine → AtRest s → polled_says e v ≢ no_call → Begins s (poll_begun s.machine) [] }
    ensures mark { (e : AnEnd) (s : EndState) → Shows e s.machine → AtRest s → commit_says e ≢ no_call → Begins s (mark_begun s.machine) [] }
{}
