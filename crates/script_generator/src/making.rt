//! The load script.
ghost use Rattle.std.specs.Prelude.{◌≡◌, ◌≤◌, ◌<◌, ◌%◌, ◌++◌, map, IfOk, OnOk};
ghost use Rattle.std.specs.List.{range_with_len};
ghost use Rattle.script_generator.specs.Load.{ask_line, fill_of, offer_line, write_line, phase_line, read_line, load_lines};
ghost use Rattle.script_lines.specs.Parts.{asks_in};
ghost use Rattle.script_lines.specs.Requests.{AskInRange};

use script_lines::{Ask, DeviceSpec, DiskAsk, Line, Script, What, request_of};
use script_text::Name;
use std::alloc::{AllocError, Global};

// How many blocks the disk has: one for each write of the longest script.
const BLOCKS: u64 = 4096;

// How many channels it has beside the first one.
const SUBS: u32 = 3;

/// The script of a load: a disk `d0` of 4,096 blocks, with three channels beside its first one.
/// Half of the `count` requests each write a block, from 0 on: block k is filled with the byte
/// `(seed + 7 * k) % 256`. The next phase reads the same blocks in the same order.
pub fn load_script(alloc: Global, seed: u32, count: u32) -> Result<Script, AllocError>
    requires even { count % 2 ≡ 0 }
    requires some { 2 ≤ count }
    requires most { count ≤ 8192 }
    ensures lines { IfOk result (λ script. script ≡ load_lines seed count) }
    ensures requests { IfOk result (λ script. asks_in script ≡ count) }
{
    let half = count / 2;
    let mut lines = Vec::with_capacity(alloc, count as usize + 2)?;
    lines.push(offer_line())?;
    push_writes(&mut lines, seed, half)?;
    lines.push(phase_line(half))?;
    push_reads(&mut lines, half)?;
    Ok(Script::of(lines))
}

/// `offer disk d0 4096 3`.
fn offer_line() -> Line
    ensures { result ≡ offer_line }
{
    Line {
        number: 1,
        what: What::Offer {
            name: Name::of(b"d0"),
            device: DeviceSpec::Disk {
                blocks: BLOCKS,
                subs: SUBS,
            },
        },
    }
}

/// The byte that fills a block.
fn fill_of(seed: u32, block: u32) -> u8
    ensures { result ≡ fill_of seed block }
{
    ((u64::from(seed) + 7 * u64::from(block)) % 256) as u8
}

/// `write d0 k 1 HH`.
fn write_line(seed: u32, block: u32) -> Line
    requires { block < 4096 }
    ensures { result ≡ write_line seed block }
{
    let ask = DiskAsk::Write {
        lba: Some(u64::from(block)),
        count: Some(1),
        byte: fill_of(seed, block),
    };
    asked(block + 2, ask)
}

/// `phase`.
fn phase_line(half: u32) -> Line
    requires { half ≤ 4096 }
    ensures { result ≡ phase_line half }
{
    Line {
        number: half + 2,
        what: What::Phase,
    }
}

/// `read d0 k 1`.
fn read_line(half: u32, block: u32) -> Line
    requires few { half ≤ 4096 }
    requires block { block < 4096 }
    ensures { result ≡ read_line half block }
{
    let ask = DiskAsk::Read {
        lba: Some(u64::from(block)),
        count: Some(1),
    };
    asked(half + 3 + block, ask)
}

/// A line that asks the disk.
fn asked(number: u32, ask: DiskAsk) -> Line
    requires { AskInRange ask }
    ensures { result ≡ ask_line number ask }
{
    Line {
        number,
        what: What::Ask {
            device: 0,
            ask: Ask::Disk(request_of(ask)),
        },
    }
}

/// The lines that write, one for each block.
fn push_writes(lines: &mut Vec<Line>, seed: u32, half: u32) -> Result<(), AllocError>
    requires { half ≤ 4096 }
    ensures { OnOk result (lines.new.items ≡ lines.old.items ++ map (write_line seed) (range_with_len 0 half)) }
{
    for block in 0..half {
        lines.push(write_line(seed, block))?;
    }
    Ok(())
}

/// The lines that read, one for each block.
fn push_reads(lines: &mut Vec<Line>, half: u32) -> Result<(), AllocError>
    requires { half ≤ 4096 }
    ensures { OnOk result (lines.new.items ≡ lines.old.items ++ map (read_line half) (range_with_len 0 half)) }
{
    for block in 0..half {
        lines.push(read_line(half, block))?;
    }
    Ok(())
}
