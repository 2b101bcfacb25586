//! Numbers and bytes, written as text.
ghost use Rattle.std.specs.Prelude.{◌≡◌, ◌≤◌, ◌++◌, ◌+◌, ◌*◌, length, OnOk, vec_len};
ghost use Rattle.std.specs.Fmt.{decimal};
ghost use Rattle.script_text.specs.Runs.{runs_of, run_text, runs_text};

use crate::hex_digits::hex_2;
use crate::run::{Run, split_run};
use itoa::Buffer;
use std::alloc::AllocError;

/// A number in decimal digits.
pub fn push_decimal(text: &mut Vec<u8>, number: u64) -> Result<(), AllocError>
    ensures text { OnOk result (text.new.items ≡ text.old.items ++ decimal number) }
    ensures short { OnOk result (vec_len text.new ≤ vec_len text.old + 20) }
{
    let mut buffer = Buffer::new();
    text.extend_from_slice(buffer.format(number).as_bytes())?;
    Ok(())
}

/// One run: how many, and the byte.
#[tactic(auto, unfolding(crate::specs::Runs::run_text))]
fn push_run(text: &mut Vec<u8>, run: Run) -> Result<(), AllocError>
    ensures text { OnOk result (text.new.items ≡ text.old.items ++ run_text run) }
    ensures short { OnOk result (vec_len text.new ≤ vec_len text.old + 23) }
{
    push_decimal(text, run.count as u64)?;
    text.extend_from_slice(b"x")?;
    text.extend_from_slice(&hex_2(run.byte))?;
    Ok(())
}

/// Bytes as runs, each as long as it can be, joined by a plus.
#[tactic(auto, using(crate::proofs::Steps::runs_few), unfolding(crate::specs::Runs::runs_text))]
pub fn push_runs(text: &mut Vec<u8>, bytes: &[u8]) -> Result<(), AllocError>
    ensures text { OnOk result (text.new.items ≡ text.old.items ++ runs_text bytes.now) }
    ensures short { OnOk result (vec_len text.new ≤ vec_len text.old + 24 * length (runs_of bytes.now)) }
    ensures few { length (runs_of bytes.now) ≤ length bytes.now }
{
    let Some((run, mut rest)) = split_run(bytes) else {
        return Ok(());
    };
    push_run(text, run)?;
    while let Some((run, after)) = split_run(rest) {
        text.extend_from_slice(b"+")?;
        push_run(text, run)?;
        rest = after;
    }
    Ok(())
}
