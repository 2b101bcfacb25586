//! The top call.
ghost use Rattle.std.specs.Prelude.{◌≡◌, ◌≢◌, ◌↔◌, ◌⊎◌, ◌≤◌, ◌<◌, ◌%◌, [], ℕ, List, Option, Some, None, MatchOption};
ghost use Rattle.io_edge.specs.Edge.{Rose, HasRoom};
ghost use Rattle.vmbus_main.specs.Words.{command_of, ReadsNothing};
ghost use Rattle.vmbus_main.specs.Call.{IsReadThrough, IsRefused, IsWritten, IsWrittenInPart, TellsInput, TellsRefused};
ghost use Rattle.vmbus_main.specs.declared.command.Command.TheVariants.{Input as InputOf, Load as LoadOf};

use crate::answer::{Answer, answer_input, answer_load};
use crate::command::{Command, InputCommand, command_of};
use crate::outcome::{Outcome, stopped};
use bus_script::{ParseFault, ScriptFault, Why6};
use io_edge::{Gate, ReadFault, Sink, Source, read_all, write_all};
use std::alloc::Global;
use std::sync::Wait;
use std::thread::Threads;

const MOST_BYTES: usize = 1_048_576;

/// Reads the input of a command to its end, where it has one, answers it, and writes the whole answer.
///
/// `words` are the program's words without its own name. Reading, answering and writing come in
/// this order, and the answer is made whole before the first write. `gate` is passed before each
/// request of a script that a worker sends or serves.
pub fn vmbus<R: Threads + Wait + Sync, S: Source, K: Sink, G: Gate>(
    rt: &R,
    alloc: Global,
    words: &[Vec<u8>],
    source: &mut S,
    sink: &mut K,
    gate: &G,
) -> Outcome
    requires { HasRoom (K.room sink.old) 67108864 }

    ensures statuses { result.status ≤ 5 }
    // Status 1 comes exactly where the words are no command.
    ensures usage { (result.status ≡ 1) ↔ (command_of words.now ≡ None) }
    // Status 2 comes with the fault of the input: its first wrong line, or a byte too many.
    ensures refused { MatchOption result.fault (result.status ≢ 2) (λ fault. (result.status ≡ 2) × IsRefused (command_of words.now) (S.left source.old) fault) }
    // With status 0 the whole answer was written: for a script the report of a run of the bus, in which these are the packets and the histories. Both controls
    // went by the script to its end: each posted all that its side says for the script, and was fed what the other one posted.
    ensures written { result.status ≡ 0 → IsWritten (command_of words.now) (S.left source.old) (K.written sink.old) (K.written sink.new) result.controls result.settled.items result.histories.items }
    // With status 4 a front of it was.
    ensures in_part { result.status ≡ 4 → IsWrittenInPart (command_of words.now) (S.left source.old) (K.written sink.old) (K.written sink.new) result.controls result.settled.items result.histories.items }
    // With any other status nothing was written, and nothing ran.
    ensures nothing { result.status ≢ 0 → result.status ≢ 4 → (K.written sink.new ≡ K.written sink.old) × (result.controls ≡ None) × (result.settled.items ≡ []) × (result.histories.items ≡ []) }
    // Statuses 3 and 4 have a cause; the first comes only with a command that has an input.
    ensures read_fault { result.status ≡ 3 → (ReadsNothing (command_of words.now) → ⊥) × Rose (S.faults source.old) (S.faults source.new) }
    ensures write_fault { result.status ≡ 4 → Rose (K.faults sink.old) (K.faults sink.new) }
    // Where the source tells an input in form and no fault is counted, all is written, or memory was short.
    ensures complete { TellsInput (command_of words.now) (S.left source.old) → (Rose (S.faults source.old) (S.faults source.new) → ⊥)
        → (Rose (K.faults sink.old) (K.faults sink.new) → ⊥) → (result.status ≡ 0) ⊎ (result.status ≡ 5) }
    // Where it tells an input that is refused, that is said, unless a read failed or memory was short.
    ensures exactly { TellsRefused (command_of words.now) (S.left source.old) → (result.status ≡ 2) ⊎ ((result.status ≡ 3) ⊎ (result.status ≡ 5)) }
    // A command that has an input read it to its end with any status but 3 and 5, or past the last byte that one may have: also where an early line of it is wrong.
    ensures ended { (ReadsNothing (command_of words.now) → ⊥) → result.status ≢ 3 → result.status ≢ 5 → IsReadThrough result.fault (S.left source.old) (S.left source.new) }
    // Where the words name no command, or one that reads nothing, the source is as it was.
    ensures unread { ReadsNothing (command_of words.now) → source.new ≡ source.old }
    ensures later { (S.faults source.old ≤ S.faults source.new) × (K.faults sink.old ≤ K.faults sink.new) }
{
    match command_of(words) {
        None => stopped(alloc, 1, None),
        Some(Command::Input(command)) => call_input(rt, alloc, command, source, sink, gate),
        Some(Command::Load { seed, count }) => call_load(rt, alloc, seed, count, sink, gate),
    }
}

/// Answers the input of a command.
fn call_input<R: Threads + Wait + Sync, S: Source, K: Sink, G: Gate>(
    rt: &R,
    alloc: Global,
    command: InputCommand,
    source: &mut S,
    sink: &mut K,
    gate: &G,
) -> Outcome
    requires { HasRoom (K.room sink.old) 67108864 }
    ensures statuses { result.status ≤ 5 }
    ensures usage { result.status ≢ 1 }
    ensures refused { MatchOption result.fault (result.status ≢ 2) (λ fault. (result.status ≡ 2) × IsRefused (Some (InputOf command)) (S.left source.old) fault) }
    ensures written { result.status ≡ 0 → IsWritten (Some (InputOf command)) (S.left source.old) (K.written sink.old) (K.written sink.new) result.controls result.settled.items result.histories.items }
    ensures in_part { result.status ≡ 4 → IsWrittenInPart (Some (InputOf command)) (S.left source.old) (K.written sink.old) (K.written sink.new) result.controls result.settled.items result.histories.items }
    ensures nothing { result.status ≢ 0 → result.status ≢ 4 → (K.written sink.new ≡ K.written sink.old) × (result.controls ≡ None) × (result.settled.items ≡ []) × (result.histories.items ≡ []) }
    ensures read_fault { result.status ≡ 3 → Rose (S.faults source.old) (S.faults source.new) }
    ensures write_fault { result.status ≡ 4 → Rose (K.faults sink.old) (K.faults sink.new) }
    ensures complete { TellsInput (Some (InputOf command)) (S.left source.old) → (Rose (S.faults source.old) (S.faults source.new) → ⊥)
        → (Rose (K.faults sink.old) (K.faults sink.new) → ⊥) → (result.status ≡ 0) ⊎ (result.status ≡ 5) }
    ensures exactly { TellsRefused (Some (InputOf command)) (S.left source.old) → (result.status ≡ 2) ⊎ ((result.status ≡ 3) ⊎ (result.status ≡ 5)) }
    ensures ended { result.status ≢ 3 → result.status ≢ 5 → IsReadThrough result.fault (S.left source.old) (S.left source.new) }
    ensures later { (S.faults source.old ≤ S.faults source.new) × (K.faults sink.old ≤ K.faults sink.new) }
{
    let input = match read_all(alloc, source, MOST_BYTES) {
        Ok(input) => input,
        Err(ReadFault::Memory) => return stopped(alloc, 5, None),
        Err(ReadFault::Fault) => return stopped(alloc, 3, None),
        Err(ReadFault::Limit) => {
            let why = Why6::Limit;
            return stopped(alloc, 2, Some(ScriptFault { line: 0, why }));
        }
    };
    let Answer {
        controls,
        settled,
        histories,
        text,
    } = match answer_input(rt, gate, alloc, command, input) {
        Ok(answer) => answer,
        Err(ParseFault::Memory) => return stopped(alloc, 5, None),
        Err(ParseFault::Script(fault)) => return stopped(alloc, 2, Some(fault)),
    };
    let status = match write_all(sink, &text) {
        Ok(()) => 0,
        Err(_) => 4,
    };
    Outcome {
        status,
        fault: None,
        controls,
        settled,
        histories,
    }
}

/// Runs the load script.
fn call_load<R: Threads + Wait + Sync, K: Sink, G: Gate>(
    rt: &R,
    alloc: Global,
    seed: u32,
    count: u32,
    sink: &mut K,
    gate: &G,
) -> Outcome
    requires even { count % 2 ≡ 0 }
    requires some { 2 ≤ count }
    requires most { count ≤ 8192 }
    requires room { HasRoom (K.room sink.old) 67108864 }
    ensures statuses { (result.status ≡ 0) ⊎ ((result.status ≡ 4) ⊎ (result.status ≡ 5)) }
    ensures fault { result.fault ≡ None }
    ensures written { result.status ≡ 0 → (left : Option (List ℕ)) → IsWritten (Some (LoadOf seed count)) left (K.written sink.old) (K.written sink.new) result.controls result.settled.items result.histories.items }
    ensures in_part { result.status ≡ 4 → (left : Option (List ℕ)) → IsWrittenInPart (Some (LoadOf seed count)) left (K.written sink.old) (K.written sink.new) result.controls result.settled.items result.histories.items }
    ensures nothing { result.status ≢ 0 → result.status ≢ 4 → (K.written sink.new ≡ K.written sink.old) × (result.controls ≡ None) × (result.settled.items ≡ []) × (result.histories.items ≡ []) }
    ensures write_fault { result.status ≡ 4 → Rose (K.faults sink.old) (K.faults sink.new) }
    ensures complete { (Rose (K.faults sink.old) (K.faults sink.new) → ⊥) → (result.status ≡ 0) ⊎ (result.status ≡ 5) }
    ensures later { K.faults sink.old ≤ K.faults sink.new }
{
    let Answer {
        controls,
        settled,
        histories,
        text,
    } = match answer_load(rt, gate, alloc, seed, count) {
        Ok(answer) => answer,
        Err(_) => return stopped(alloc, 5, None),
    };
    let status = match write_all(sink, &text) {
        Ok(()) => 0,
        Err(_) => 4,
    };
    Outcome {
        status,
        fault: None,
        controls,
        settled,
        histories,
    }
}
