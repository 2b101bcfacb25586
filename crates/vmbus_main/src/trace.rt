//! The verdict on a recorded run, as a text.
ghost use Rattle.vmbus_main.specs.Answered.{IsAnswered};
ghost use Rattle.vmbus_main.specs.declared.command.InputCommand.TheVariants.{Trace};

use crate::answer::Answer;
use bus_script::ParseFault;
use std::alloc::Global;
use trace_check::{check_lines, verdict_text};

/// Checks a recorded run, and tells the verdict on it in one line.
pub(crate) fn trace_input(alloc: Global, input: &[u8]) -> Result<Answer, ParseFault>
    ensures { IsAnswered Trace input.now result }
{
    let verdict = check_lines(alloc, input)?;
    let text = verdict_text(alloc, verdict)?;
    Ok(Answer {
        controls: None,
        settled: Vec::new(alloc),
        histories: Vec::new(alloc),
        text,
    })
}
