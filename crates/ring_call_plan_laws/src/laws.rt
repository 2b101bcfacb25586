//! The laws: each function does nothing, and its contract is a law. What a caller does by plans is a whole call: the calls that it makes, one or two, with the
//! accesses that they plan.
ghost use Rattle.std.specs.Prelude.{◌≡◌, ◌≢◌, ℕ, List, ◌++◌, None};
ghost use Rattle.std.specs.List.{AllByRecursion};
ghost use Rattle.io_edge.specs.declared.side.Side.{Side};
ghost use Rattle.ring_machine.specs.Endings.{why_of};
ghost use Rattle.ring_machine.specs.Inside.{IsOpOf};
ghost use Rattle.ring_machine.specs.Places.{peer_of};
ghost use Rattle.ring_machine.specs.States.{entered};
ghost use Rattle.ring_machine.specs.Steps.{IsSound};
ghost use Rattle.ring_machine.specs.declared.last.Why.{Why};
ghost use Rattle.ring_machine.specs.declared.state.EndState.{EndState};
ghost use Rattle.ring_core.specs.Refused.{BreaksIn};
ghost use Rattle.ring_core.specs.Told.{Ran, tells_nothing};
ghost use Rattle.ring_seat.specs.Waking.{WakeCause};
ghost use Rattle.ring_call_plan.specs.declared.end.PlanEnd.{PlanEnd};
ghost use Rattle.ring_call_plan.specs.Answers.{no_call};
ghost use Rattle.ring_call_plan.specs.Shown.{Shows, AtRest};
ghost use Rattle.ring_call_plan_laws.specs.Accesses.{Access, answers};
ghost use Rattle.ring_call_plan_laws.specs.Whole.{PlanCall, IsCallOf, IsHeard, accesses, answer_of, begins_as, begun_by, end_of, packet_by};
ghost use Rattle.ring_call_plan_laws.specs.Plays.{Channel, IsLawfulChannel, IsPlayed, Turn, entered_by, own_of, played};

/// A call whose plan was given isn't refused where it is done.
pub fn plans_are_carried_out()
    ensures { (e : PlanEnd) (c : PlanCall) → begins_as e c ≢ no_call → answer_of e c ≢ no_call }
{}

/// A whole call by plans is a call of the end's whole state, whatever the caller hears: it begins there, the caller's accesses are its steps one by one, and it
/// leaves an end that shows the state after them. So it is a run of that state, of which all that is proved of calls speaks, whatever the peer does.
pub fn plans_are_calls()
    ensures call { (s : EndState) (e : PlanEnd) (c : PlanCall) → Shows e s.machine → AtRest s → begins_as e c ≢ no_call → IsHeard e c → IsCallOf s e c }
    ensures run { (s : EndState) (e : PlanEnd) (c : PlanCall) → IsSound s.machine → (call : IsCallOf s e c)
        → (r : Ran (entered s (begun_by s.machine c) (packet_by c)) call.after None None tells_nothing tells_nothing) × (r.values ≡ answers (accesses s.machine.side e c)) }
{}

/// No access of a whole call names a place outside its channel, and the state that it leaves is sound again.
pub fn plans_stay_inside()
    ensures inside { (s : EndState) (e : PlanEnd) (c : PlanCall) → IsSound s.machine → IsCallOf s e c → AllByRecursion (λ a. IsOpOf s.machine.cells 0 a.op) (accesses s.machine.side e c) }
    ensures sound { (s : EndState) (e : PlanEnd) (c : PlanCall) → IsSound s.machine → (call : IsCallOf s e c) → IsSound call.after.machine }
{}

/// A whole call stops its end exactly where a value that the caller loaded breaks a rule, and for the first such value's cause.
pub fn plans_refuse_by_cause()
    ensures cause { (s : EndState) (e : PlanEnd) (c : PlanCall) → (call : IsCallOf s e c) → (end_of e c).state ≡ 1
        → BreaksIn (entered s (begun_by s.machine c) (packet_by c)) (answers (accesses s.machine.side e c)) (why_of call.after.machine) }
    ensures refusal { (s : EndState) (e : PlanEnd) (c : PlanCall) (why : Why) → (call : IsCallOf s e c)
        → BreaksIn (entered s (begun_by s.machine c) (packet_by c)) (answers (accesses s.machine.side e c)) why → ((end_of e c).state ≡ 1) × (why_of call.after.machine ≡ why) }
{}

/// A channel one of whose ends makes plans keeps its rule: at each moment of a whole call, while its peer makes steps and begins calls between any two of the
/// accesses, and where each access gives what the words hold then. After the last one the end shows its machine, and may begin the next call.
pub fn plans_keep_the_channel()
    ensures rule { (n : ℕ) (x : Side) (w : Channel) (e : PlanEnd) (c : PlanCall) (turns : List Turn) (rest : List Access) → IsLawfulChannel n w → Shows e (w.ends x).machine → AtRest (w.ends x)
        → begins_as e c ≢ no_call → IsHeard e c → IsPlayed n x (entered_by x (begun_by (w.ends x).machine c) (packet_by c) w) turns → rest ++ own_of turns ≡ accesses x e c
        → IsLawfulChannel n (played n x (entered_by x (begun_by (w.ends x).machine c) (packet_by c) w) turns) }
    ensures over { (n : ℕ) (x : Side) (w : Channel) (e : PlanEnd) (c : PlanCall) (turns : List Turn) → IsLawfulChannel n w → Shows e (w.ends x).machine → AtRest (w.ends x)
        → begins_as e c ≢ no_call → IsHeard e c → IsPlayed n x (entered_by x (begun_by (w.ends x).machine c) (packet_by c) w) turns → own_of turns ≡ accesses x e c
        → Shows (end_of e c) ((played n x (entered_by x (begun_by (w.ends x).machine c) (packet_by c) w) turns).ends x).machine
        × AtRest ((played n x (entered_by x (begun_by (w.ends x).machine c) (packet_by c) w) turns).ends x) }
{}

/// No lost wake-up: while an end that makes plans sleeps, there is nothing for it, or its signal is up, or its peer is still inside the call that raises it.
pub fn plans_sleep_by_cause()
    ensures { (n : ℕ) (x : Side) (w : Channel) (e : PlanEnd) → IsLawfulChannel n w → Shows e (w.ends x).machine → e.state ≡ 6 → WakeCause n w.words x (w.ends x).machine (w.ends (peer_of x)).machine }
{}
