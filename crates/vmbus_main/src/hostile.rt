//! A run beside a peer that writes anything, as a text.
ghost use Rattle.vmbus_main.specs.Answered.{IsAnswered};
ghost use Rattle.vmbus_main.specs.declared.command.InputCommand.TheVariants.{Hostile};

use crate::answer::Answer;
use bus_script::ParseFault;
use hostile_run::run_hostile;
use std::alloc::Global;

/// Runs an end and the parts beside it by the lines of an input, and tells what each line came to.
pub(crate) fn hostile_input(alloc: Global, input: &[u8]) -> Result<Answer, ParseFault>
    ensures { IsAnswered Hostile input.now result }
{
    let text = run_hostile(alloc, input)?;
    Ok(Answer {
        controls: None,
        settled: Vec::new(alloc),
        histories: Vec::new(alloc),
        text,
    })
}
