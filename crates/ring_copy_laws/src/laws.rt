//! The law of copies: the function does nothing, and its contract is the law.
ghost use Rattle.std.specs.Prelude.{◌≡◌, ◌≢◌, ◌++◌, List};
ghost use Rattle.std.specs.Prelude.{ℕ};
ghost use Rattle.ring_machine.specs.Endings.{why_of};
ghost use Rattle.ring_machine.specs.declared.machine.Stage.TheVariants.{Stopped};
ghost use Rattle.ring_machine.specs.declared.state.EndState.{EndState};
ghost use Rattle.ring_end_history.specs.Calls.{CallsLead, WholeCall};
ghost use Rattle.ring_copy_laws.specs.Copies.{BrokeLast, Copied};

/// Whatever its peer wrote at any moment: the packets that an end got between two moments are the copies that its takes made, in order, each of one take, which
/// loaded each word of it once and tested its length and its payload's offset in that copy. An end that stopped did so in its last call, which loaded a value
/// that breaks the rule that it names.
pub fn copies_are_checked()
    ensures got { (cs : List WholeCall) (s t : EndState) → CallsLead cs s t → (ps : List (List ℕ)) × (t.got ≡ s.got ++ ps) × Copied cs s t ps }
    ensures stopped { (cs : List WholeCall) (s t : EndState) → CallsLead cs s t → s.machine.stage ≢ Stopped → t.machine.stage ≡ Stopped → BrokeLast cs s t (why_of t.machine) }
{}
