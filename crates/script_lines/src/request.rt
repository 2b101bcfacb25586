//! The requests that lines ask of a disk.
ghost use Rattle.std.specs.Prelude.{◌≡◌, ◌<◌, ◌≤◌, ◌*◌, Some};
ghost use Rattle.scsi_disk.specs.Commands.{command_of};
ghost use Rattle.script_lines.specs.Requests.{ten, sixteen, moving, inquiry_cdb, long_capacity_cdb, filled, cdb_of, out_of, request_of, command_said, AskInRange};

use crate::disk_ask::DiskAsk;
use scsi_disk::{Chunk, DiskRequest};

// How many bytes an inquiry asks for: all that there are.
const INQUIRY: u8 = 36;

// How many bytes a read of the capacity in 64 bits asks for: all that there are.
const LONG_CAPACITY: u8 = 32;

// A command with its code in byte 0, its first block in bytes 2 to 5 and its count of blocks in
// bytes 7 and 8, both big-endian; all else is 0.
fn ten(code: u8, lba: u32, count: u16) -> [u8; 16]
    ensures { result ≡ ten code lba count }
{
    let [a, b, c, d] = lba.to_be_bytes();
    let [high, low] = count.to_be_bytes();
    [code, 0, a, b, c, d, 0, high, low, 0, 0, 0, 0, 0, 0, 0]
}

// A command with its code in byte 0, its first block in bytes 2 to 9 and its count of blocks in
// bytes 10 to 13, both big-endian; all else is 0.
fn sixteen(code: u8, lba: u64, count: u32) -> [u8; 16]
    ensures { result ≡ sixteen code lba count }
{
    let [a, b, c, d, e, f, g, h] = lba.to_be_bytes();
    let [i, j, k, l] = count.to_be_bytes();
    [code, 0, a, b, c, d, e, f, g, h, i, j, k, l, 0, 0]
}

// A command that moves blocks, by its code in 10 and its code in 16 bytes: it has 10 where the number
// of the first block fits into 32 bits, and else 16.
fn moving(narrow: u8, wide: u8, lba: u64, count: u32) -> [u8; 16]
    requires { count ≤ 8 }
    ensures { result ≡ moving narrow wide lba count }
{
    if lba < 1 << 32 {
        ten(narrow, lba as u32, count as u16)
    } else {
        sixteen(wide, lba, count)
    }
}

// The command for the capacity in 64 bits, with its service action, and with how many bytes may come
// back in bytes 10 to 13.
fn long_capacity_cdb() -> [u8; 16]
    ensures { result ≡ long_capacity_cdb }
{
    [
        0x9e,
        0x10,
        0,
        0,
        0,
        0,
        0,
        0,
        0,
        0,
        0,
        0,
        0,
        LONG_CAPACITY,
        0,
        0,
    ]
}

// The command of an inquiry, with how many bytes may come back in bytes 3 and 4.
fn inquiry_cdb() -> [u8; 16]
    ensures { result ≡ inquiry_cdb }
{
    [0x12, 0, 0, 0, INQUIRY, 0, 0, 0, 0, 0, 0, 0, 0, 0, 0, 0]
}

// So many blocks of one byte.
fn filled(count: u32, byte: u8) -> Chunk
    requires { count ≤ 8 }
    ensures { result ≡ filled count byte }
{
    let bytes = [byte; 4096];
    Chunk::of(&bytes[..512 * count as usize])
}

// The command of a line (codes of Linux `include/scsi/scsi_proto.h`).
fn cdb_of(ask: DiskAsk) -> [u8; 16]
    requires { AskInRange ask }
    ensures { result ≡ cdb_of ask }
{
    match ask {
        DiskAsk::Ready => ten(0x00, 0, 0),
        DiskAsk::Inquiry => inquiry_cdb(),
        DiskAsk::Capacity => ten(0x25, 0, 0),
        DiskAsk::LongCapacity => long_capacity_cdb(),
        DiskAsk::Flush => ten(0x35, 0, 0),
        DiskAsk::Read { lba, count } => { moving(0x28, 0x88, lba.unwrap_or(0), count.unwrap_or(0)) }
        DiskAsk::Write {
            lba,
            count,
            byte: _,
        } => moving(0x2a, 0x8a, lba.unwrap_or(0), count.unwrap_or(0)),
    }
}

// The data of a line: a write alone has any.
fn out_of(ask: DiskAsk) -> Chunk
    requires { AskInRange ask }
    ensures { result ≡ out_of ask }
{
    match ask {
        DiskAsk::Write {
            lba: _,
            count,
            byte,
        } => filled(count.unwrap_or(0), byte),
        _ => Chunk::empty(),
    }
}

/// The request of a line: a command of 6, 10 or 16 bytes, and for a write its data. The disk reads
/// the line's command in it.
pub fn request_of(ask: DiskAsk) -> DiskRequest
    requires { AskInRange ask }
    ensures request { result ≡ request_of ask }
    ensures command { command_of result.cdb ≡ Some (command_said ask) }
{
    let cdb = cdb_of(ask);
    let out = out_of(ask);
    DiskRequest { cdb, out }
}
