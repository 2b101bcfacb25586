//! The run of an input.
ghost use Rattle.std.specs.Prelude.{◌≡◌, ◌≤◌, ◌+◌, ◌*◌, ◌++◌, ℕ, List, IfOk, OnOk, unwrap_or, vec_len, length};
ghost use Rattle.std.specs.List.{All};
ghost use Rattle.ring_core.specs.Told.{IsScript};
ghost use Rattle.hostile_lines.specs.Ranges.{IsLineIn};
ghost use Rattle.hostile_run.specs.Run.{Stand, SaysLines, opening_stand, end_text, Outputs};

use crate::bench::Bench;
use crate::puts::put_all;
use hostile_lines::{CommandLine, Hostile, in_step_order, parse_hostile};
use ring_core::{Change, ToldMem};
use script_text::{ParseFault, push_decimal};
use std::alloc::{AllocError, Global};

// Does what each line asks, in order.
#[tactic(auto, using(crate::proofs::Going::begins, crate::proofs::Going::goes_by_place))]
fn push_lines(
    alloc: Global,
    bench: &mut Bench,
    lines: &[CommandLine],
    text: &mut Vec<u8>,
) -> Result<(), AllocError>
    requires range { All (IsLineIn (8 * bench.old.at.state.machine.cells)) lines.now }
    ensures says { OnOk result ((said : List ℕ) × SaysLines lines.now bench.old bench.new said × (text.new.items ≡ text.old.items ++ said)) }
    ensures short { OnOk result (vec_len text.new ≤ vec_len text.old + 140022 * length lines.now) }
{
    for i in 0..lines.len() {
        bench.line(alloc, &lines[i], text)?;
    }
    Ok(())
}

fn push_end(text: &mut Vec<u8>, steps: u64) -> Result<(), AllocError>
    ensures text { OnOk result (text.new.items ≡ text.old.items ++ end_text steps) }
    ensures short { OnOk result (vec_len text.new ≤ vec_len text.old + 31) }
{
    text.extend_from_slice(b"end steps ")?;
    push_decimal(text, steps)?;
    text.extend_from_slice(b"\n")?;
    Ok(())
}

// The text of lines, and of how many steps the end made.
fn run_lines(alloc: Global, bench: &mut Bench, lines: &[CommandLine]) -> Result<Vec<u8>, AllocError>
    requires range { All (IsLineIn (8 * bench.old.at.state.machine.cells)) lines.now }
    requires few { length lines.now ≤ 256 }
    ensures says { IfOk result (λ text. (said : List ℕ) × SaysLines lines.now bench.old bench.new said × (text.items ≡ said ++ end_text bench.new.at.memory.steps)) }
    ensures short { IfOk result (λ text. length text.items ≤ 36000000) }
{
    let mut text = Vec::new(alloc);
    push_lines(alloc, bench, lines, &mut text)?;
    push_end(&mut text, bench.end.steps())?;
    Ok(text)
}

// Runs what an input says, behind its changes in the order of their steps.
fn run_input(alloc: Global, hostile: &Hostile, due: Vec<Change>) -> Result<Vec<u8>, AllocError>
    requires due { IsScript (512 * unwrap_or hostile.now.ring 1) 0 due.items }
    ensures says { IfOk result (λ text. (last : Stand) × (said : List ℕ) × SaysLines hostile.now.asked (opening_stand hostile.now due.items) last said × (text.items ≡ said ++ end_text last.at.memory.steps)) }
    ensures short { IfOk result (λ text. length text.items ≤ 36000000) }
{
    let d = 4096 * hostile.pages();
    let mut mem = ToldMem::make(alloc, d, due, 0)?;
    put_all(&mut mem, d, hostile.puts());
    let mut bench = Bench::make(alloc, d, mem)?;
    let text = run_lines(alloc, &mut bench, hostile.asked());
    drop(bench);
    text
}

/// Runs a guest's end, and the parts beside it, by the lines of an input, beside a peer that writes what the lines say. Its text has a line for each line that asks
/// something, and one with how many steps were made.
///
/// Errors: the first wrong line of the input, with the first reason against it; `Memory` for want of memory.
pub fn run_hostile(alloc: Global, bytes: &[u8]) -> Result<Vec<u8>, ParseFault>
    ensures outputs { Outputs bytes.now result }
    ensures short { IfOk result (λ text. length text.items ≤ 36000000) }
{
    let mut hostile = parse_hostile(alloc, bytes)?;
    let due = in_step_order(hostile.take_changes(alloc))?;
    match run_input(alloc, &hostile, due) {
        Ok(text) => Ok(text),
        Err(_) => Err(ParseFault::Memory),
    }
}
