//! Laws of traces: each function does nothing, and its contract is a law.
ghost use Rattle.std.specs.Prelude.{◌≡◌, ℕ, List, ◌++◌};
ghost use Rattle.trace_model.specs.Traces.{TraceLine, Moment, LinesLead, IsTraceRun, IsVerdict};
ghost use Rattle.trace_model.specs.declared.verdict.Verdict.{Verdict};

/// A trace has at most one verdict: where its lines are a run, no line is wrong, and where a line is wrong, no other line is the first, for no other reason.
pub fn one_verdict()
    ensures { (d : ℕ) (lines : List TraceLine) (a b : Verdict) → IsVerdict d lines a → IsVerdict d lines b → a ≡ b }
{}

/// Each front of a run is a run, and lines that go on from where it stands make a longer one.
pub fn fronts_are_runs()
    ensures front { (d : ℕ) (first more : List TraceLine) (n : Moment) → IsTraceRun d (first ++ more) n → (m : Moment) × IsTraceRun d first m × LinesLead more m n }
    ensures longer { (d : ℕ) (first more : List TraceLine) (m n : Moment) → IsTraceRun d first m → LinesLead more m n → IsTraceRun d (first ++ more) n }
{}
