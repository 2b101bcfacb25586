//! Laws of calls: each function does nothing, and its contract is a law.
ghost use Rattle.std.specs.Prelude.{◌≡◌, true, Option};
ghost use Rattle.ring_machine.specs.Endings.{why_of};
ghost use Rattle.ring_machine.specs.Steps.{is_busy_at};
ghost use Rattle.ring_machine.specs.declared.last.Why.{Why};
ghost use Rattle.ring_machine.specs.declared.machine.Stage.TheVariants.{Stopped};
ghost use Rattle.ring_machine.specs.declared.state.EndState.{EndState};
ghost use Rattle.ring_core.specs.Told.{Ran, Tale};
ghost use Rattle.ring_core.specs.Refused.{BreaksIn};
ghost use Rattle.ring_core.specs.declared.told.Told.{Told};

/// A call stops its end exactly where one of the values that it loaded breaks a rule, and then names that rule.
pub fn refuses_by_value()
    ensures cause { (s t : EndState) (told told' : Option Told) (tale tale' : Tale) (r : Ran s t told told' tale tale') → is_busy_at s.machine.stage ≡ true → t.machine.stage ≡ Stopped → BreaksIn s r.values (why_of t.machine) }
    ensures refusal { (s t : EndState) (told told' : Option Told) (tale tale' : Tale) (r : Ran s t told told' tale tale') (why : Why) → BreaksIn s r.values why → (t.machine.stage ≡ Stopped) × (why_of t.machine ≡ why) }
{}
