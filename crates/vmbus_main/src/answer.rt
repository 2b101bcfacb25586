//! The output of a command on an input.
ghost use Rattle.std.specs.Prelude.{◌≡◌, ◌≤◌, ◌%◌, length, IfOk};
ghost use Rattle.vmbus_main.specs.Answer.{IsLoadAnswer};
ghost use Rattle.vmbus_main.specs.Answered.{IsAnswered};
ghost use Rattle.vmbus_main.specs.declared.command.InputCommand.TheVariants.{Run, Decode};

use crate::command::InputCommand;
use crate::hostile::hostile_input;
use crate::outcome::Controls;
use crate::run::{BusRan, run_script};
use crate::sock::sock_input;
use crate::trace::trace_input;
use bus_model::{ChannelRun, DeviceHistory};
use bus_script::{ParseFault, parse, report};
use io_edge::Gate;
use script_generator::{load_line, load_script};
use std::alloc::{AllocError, Global};
use std::sync::Wait;
use std::thread::Threads;
use vmbus_msg_text::decode_text;

/// The output, and what ran.
#[derive(Drop)]
pub struct Answer {
    pub controls: Option<Controls>,
    pub settled: Vec<ChannelRun>,
    pub histories: Vec<DeviceHistory>,
    pub text: Vec<u8>,
}

/// Answers an input of at most a megabyte.
pub fn answer_input<R: Threads + Wait + Sync, G: Gate>(
    rt: &R,
    gate: &G,
    alloc: Global,
    command: InputCommand,
    input: Vec<u8>,
) -> Result<Answer, ParseFault>
    requires size { length input.items ≤ 1048576 }
    ensures { IsAnswered command input.items result }
{
    match command {
        InputCommand::Run => run_input(rt, gate, alloc, &input),
        InputCommand::Decode => decode_input(alloc, &input),
        InputCommand::Trace => trace_input(alloc, &input),
        InputCommand::Hostile => hostile_input(alloc, &input),
        InputCommand::Sock { port } => sock_input(rt, alloc, port, input),
    }
}

fn run_input<R: Threads + Wait + Sync, G: Gate>(
    rt: &R,
    gate: &G,
    alloc: Global,
    input: &[u8],
) -> Result<Answer, ParseFault>
    requires { length input.now ≤ 1048576 }
    ensures { IsAnswered Run input.now result }
{
    let script = parse(alloc, input)?;
    let Ok(ran) = run_script(rt, gate, alloc, &script) else {
        return Err(ParseFault::Memory);
    };
    let BusRan { controls, run, .. } = ran;
    let (settled, histories, results) = run.into_lists();
    match report(alloc, &script, &results) {
        Ok(text) => Ok(Answer {
            controls: Some(controls),
            settled,
            histories,
            text,
        }),
        Err(_) => Err(ParseFault::Memory),
    }
}

/// Runs the load script, and tells in one line what came of it.
pub fn answer_load<R: Threads + Wait + Sync, G: Gate>(
    rt: &R,
    gate: &G,
    alloc: Global,
    seed: u32,
    count: u32,
) -> Result<Answer, AllocError>
    requires even { count % 2 ≡ 0 }
    requires some { 2 ≤ count }
    requires most { count ≤ 8192 }
    ensures answer { IfOk result (λ a. IsLoadAnswer seed count a.controls a.settled.items a.histories.items a.text.items) }
    ensures short { IfOk result (λ a. length a.text.items ≤ 67108864) }
{
    let script = load_script(alloc, seed, count)?;
    let ran = run_script(rt, gate, alloc, &script)?;
    let BusRan { controls, run, .. } = ran;
    let (settled, histories, results) = run.into_lists();
    let text = load_line(alloc, count, &results)?;
    Ok(Answer {
        controls: Some(controls),
        settled,
        histories,
        text,
    })
}

fn decode_input(alloc: Global, input: &[u8]) -> Result<Answer, ParseFault>
    ensures { IsAnswered Decode input.now result }
{
    let text = decode_text(alloc, input)?;
    Ok(Answer {
        controls: None,
        settled: Vec::new(alloc),
        histories: Vec::new(alloc),
        text,
    })
}
