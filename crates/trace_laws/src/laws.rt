//! Laws of runs: each function does nothing, and its contract is a law.
ghost use Rattle.std.specs.Prelude.{◌≡◌, ℕ, ◌/◌, ◌++◌, List};
ghost use Rattle.ring_machine.specs.Places.{IsRingSize};
ghost use Rattle.ring_seat.specs.Rule.{ChannelInvariant};
ghost use Rattle.io_edge.specs.declared.side.Side.{Side};
ghost use Rattle.ring_machine.specs.declared.place.Op.{Op};
ghost use Rattle.trace_model.specs.Traces.{TraceLine, Moment, end_at, IsTraceRun};
ghost use Rattle.trace_model.specs.declared.what.TraceWhat.TheVariants.{Step};
ghost use Rattle.trace_text.specs.Steps.{step_text};
ghost use Rattle.trace_laws.specs.Texts.{IsStepOf, ReadsAs};

use ring_seat::laws::steps_keep_the_rule;

/// Where a run stands, and after each of its lines, the channel keeps the rule of two honest ends: each ring stands for what was sent and got, each end's words
/// are what it last stored, and no wake-up is lost.
pub fn runs_keep_the_rule()
    ensures run { (d : ℕ) (lines : List TraceLine) (n : Moment) → IsRingSize d → IsTraceRun d lines n → ChannelInvariant (d / 8) n.words (end_at n) }
    ensures each { (d : ℕ) (first more : List TraceLine) (n : Moment) → IsRingSize d → IsTraceRun d (first ++ more) n → (m : Moment) × IsTraceRun d first m × ChannelInvariant (d / 8) m.words (end_at m) }
{
    steps_keep_the_rule();
}

/// What is written of a step is one line, and is read as that step with what it answered, whatever comes behind it.
pub fn texts_are_read()
    ensures { (d : ℕ) (x : Side) (op : Op) (v : ℕ) → IsRingSize d → IsStepOf d x op v → ReadsAs d (step_text x op v) (Step x op v) }
{}
