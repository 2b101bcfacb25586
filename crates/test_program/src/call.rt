//! The top call, as the tests make it.
ghost use Rattle.io_edge.specs.Edge.{HasRoom};

use crate::check::check;
use bus_script::{ScriptFault, Why6};
use io_edge::{Gate, NoGate, Sink, Source, SureSink, SureSource};
use std::alloc::AllocGlobal;
use std::process::Abort;
use std::sync::Wait;
use std::thread::Threads;
use vmbus_main::{Outcome, vmbus};

const ROOM: usize = 67_108_864;

/// A source of these bytes.
pub(crate) fn source_of(rt: &(impl Abort + AllocGlobal), input: &[u8]) -> SureSource {
    SureSource::make(input.to_vec(rt.alloc()).expect(rt, "memory"))
}

/// A sink with room for every answer.
pub(crate) fn sink_of(rt: &(impl Abort + AllocGlobal)) -> SureSink
    ensures { HasRoom (Some result.room) 67108864 }
{
    SureSink::make(rt.alloc(), ROOM).expect(rt, "memory")
}

/// What a command comes to.
pub(crate) fn call_words<
    R: Threads + Wait + Sync + Abort + AllocGlobal,
    S: Source,
    K: Sink,
    G: Gate,
>(rt: &R, words: &[&[u8]], source: &mut S, sink: &mut K, gate: &G) -> Outcome
    requires { HasRoom (K.room sink.old) 67108864 }
{
    let owned = owned_words(rt, words);
    let outcome = vmbus(rt, rt.alloc(), &owned, source, sink, gate);
    drop(owned);
    outcome
}

// These words, owned.
fn owned_words(rt: &(impl Abort + AllocGlobal), words: &[&[u8]]) -> Vec<Vec<u8>> {
    let mut owned = Vec::new(rt.alloc());
    for word in words {
        owned
            .push(word.to_vec(rt.alloc()).expect(rt, "memory"))
            .expect(rt, "memory");
    }
    owned
}

/// What a command comes to on an input.
pub(crate) fn outcome_on(
    rt: &(impl Threads + Wait + Sync + Abort + AllocGlobal),
    words: &[&[u8]],
    input: &[u8],
    sink: &mut SureSink,
    gate: &impl Gate,
) -> Outcome
    requires { HasRoom (Some sink.old.room) 67108864 }
{
    let mut source = source_of(rt, input);
    let outcome = call_words(rt, words, &mut source, sink, gate);
    drop(source);
    outcome
}

/// What a script comes to.
pub(crate) fn outcome_of(
    rt: &(impl Threads + Wait + Sync + Abort + AllocGlobal),
    script: &[u8],
) -> Outcome {
    let mut sink = sink_of(rt);
    let outcome = outcome_on(rt, &[b"run"], script, &mut sink, &NoGate);
    drop(sink);
    outcome
}

/// The status of an outcome, and the fault for which its input is refused. All else is let go, by a call: a value of so many parts costs its function much at its end.
pub(crate) fn end_of(outcome: Outcome) -> (u8, Option<ScriptFault>) {
    let end = (outcome.status, outcome.fault);
    drop(outcome);
    end
}

/// Whether a command on an input ends with this status, and writes exactly one of these.
pub(crate) fn answers_one(
    rt: &(impl Threads + Wait + Sync + Abort + AllocGlobal),
    words: &[&[u8]],
    input: &[u8],
    gate: &impl Gate,
    status: u8,
    outputs: &[&[u8]],
) -> bool {
    let mut sink = sink_of(rt);
    let (ended, _) = end_of(outcome_on(rt, words, input, &mut sink, gate));
    let same = ended == status && outputs.iter().any(|output| sink.bytes() == *output);
    drop(sink);
    same
}

/// Whether a command of one word on an input ends with this status, and writes exactly this.
pub(crate) fn answers(
    rt: &(impl Threads + Wait + Sync + Abort + AllocGlobal),
    word: &[u8],
    input: &[u8],
    status: u8,
    output: &[u8],
) -> bool {
    answers_one(rt, &[word], input, &NoGate, status, &[output])
}

/// Each input of a table is answered by its output.
pub(crate) fn check_answers(
    rt: &(impl Threads + Wait + Sync + Abort + AllocGlobal),
    word: &[u8],
    table: &[(&[u8], &[u8])],
) {
    for (input, output) in table {
        check(rt, answers(rt, word, input, 0, output));
    }
}

// The fault for which an input is refused, where nothing is written.
fn refusal(
    rt: &(impl Threads + Wait + Sync + Abort + AllocGlobal),
    word: &[u8],
    input: &[u8],
) -> Option<ScriptFault> {
    let mut sink = sink_of(rt);
    let (status, fault) = end_of(outcome_on(rt, &[word], input, &mut sink, &NoGate));
    let refused = status == 2 && sink.bytes().is_empty();
    drop(sink);
    if refused { fault } else { None }
}

/// Each input of a table is refused at its line for its reason.
pub(crate) fn check_refusals(
    rt: &(impl Threads + Wait + Sync + Abort + AllocGlobal),
    word: &[u8],
    table: &[(&[u8], u32, Why6)],
) {
    for (input, line, why) in table {
        let fault = ScriptFault {
            line: *line,
            why: *why,
        };
        check(rt, refusal(rt, word, input) == Some(fault));
    }
}
