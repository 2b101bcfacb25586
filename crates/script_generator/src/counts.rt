//! What came of a load, in one line.
ghost use Rattle.std.specs.Prelude.{◌≡◌, ◌≤◌, ◌*◌, ◌++◌, length, count_by, IfOk, OnOk, vec_len};
ghost use Rattle.std.specs.List.{sum};
ghost use Rattle.bus_script.specs.Report.{is_done};
ghost use Rattle.script_generator.specs.Counts.{back_of, bytes_read, load_output};

use bus_script::{LineResult, Reply};
use script_text::push_decimal;
use scsi_disk::DiskReply;
use std::alloc::{AllocError, Global};

/// The line of a load of so many requests: how many of them are done, how many bytes were read, and
/// the sum of these bytes.
pub fn load_line(
    alloc: Global,
    requests: u32,
    results: &[LineResult],
) -> Result<Vec<u8>, AllocError>
    requires { length results.now ≤ 20000 }
    ensures text { IfOk result (λ text. text.items ≡ load_output requests results.now) }
    ensures short { IfOk result (λ text. length text.items ≤ 128) }
{
    let done = count_done(results);
    let bytes = count_read(results);
    let sum = sum_read(results);
    let mut text = Vec::new(alloc);
    text.extend_from_slice(b"load requests ")?;
    push_decimal(&mut text, u64::from(requests))?;
    text.extend_from_slice(b" done ")?;
    push_decimal(&mut text, done as u64)?;
    text.extend_from_slice(b" bytes ")?;
    push_decimal(&mut text, bytes)?;
    text.extend_from_slice(b" sum ")?;
    push_decimal(&mut text, sum)?;
    text.extend_from_slice(b"\n")?;
    Ok(text)
}

fn is_done(outcome: &LineResult) -> bool
    ensures { result ≡ is_done outcome.now }
{
    matches!(outcome, LineResult::Done { .. })
}

fn count_done(results: &[LineResult]) -> usize
    ensures { result ≡ count_by is_done results.now }
{
    results.iter().filter(|r| is_done(r)).count()
}

/// The bytes that came back to a line.
fn back_of(outcome: &LineResult) -> &[u8]
    ensures bytes { result.now ≡ back_of outcome.now }
    ensures few { length result.now ≤ 4096 }
{
    match outcome {
        LineResult::Done {
            serial: _,
            reply: Reply::Disk(DiskReply::Good(back)),
        } => back.bytes(),
        _ => &[],
    }
}

/// How many bytes were read.
fn count_read(results: &[LineResult]) -> u64
    requires { length results.now ≤ 20000 }
    ensures { result ≡ length (bytes_read results.now) }
{
    let mut count = 0;
    for outcome in results {
        count += back_of(outcome).len() as u64;
    }
    count
}

fn sum_of(bytes: &[u8]) -> u64
    requires { length bytes.now ≤ 4096 }
    ensures sum { result ≡ sum bytes.now }
    ensures most { result ≤ 1044480 }
{
    let mut total = 0;
    for byte in bytes {
        total += u64::from(*byte);
    }
    total
}

/// The sum of the bytes that were read.
fn sum_read(results: &[LineResult]) -> u64
    requires { length results.now ≤ 20000 }
    ensures { result ≡ sum (bytes_read results.now) }
{
    let mut total = 0;
    for outcome in results {
        total += sum_of(back_of(outcome));
    }
    total
}
