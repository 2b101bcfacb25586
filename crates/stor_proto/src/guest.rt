//! The guest's side of an srb: the packet of a disk's request, and the reply in its completion.
ghost use Rattle.std.specs.Prelude.{◌≡◌, ◌≤◌, ◌<◌, ◌^◌, List, ℕ, IsSome, Ok, Some, length};
ghost use Rattle.scsi_disk.specs.Commands.{command_of};
ghost use Rattle.stor_proto.specs.Srbs.{bytes_moved, cdb_length, data_in};
ghost use Rattle.stor_proto.specs.Srbs.{HasItsData, ask_of, done_of, reply_at, request_of};

use crate::srb::{
    self, CDB, CDB_LENGTH, DATA_IN, DATA_TRANSFER_LENGTH, LENGTH, SENSE_INFO_LENGTH, SRB_STATUS,
};
use crate::{SrbEnd, Vstor};
use scsi_disk::{Chunk, Command, DiskReply, DiskRequest};

/// The packet of a disk's request: operation 3, flags 1, and 0 where nothing else is said. A command
/// has 6 bytes for the codes 00 and 12, 16 for 88, 8A and 9E, and else 10. data_transfer_length is
/// how many bytes go or may come.
pub fn srb_ask(r: &DiskRequest) -> Vstor
    requires built { IsSome (command_of r.now.cdb) }
    requires few { bytes_moved (command_of r.now.cdb) (length r.now.out) ≤ 4096 }
    ensures value { result ≡ ask_of r.now }

    // The host reads the same request, if only a write has data.
    ensures read_back { HasItsData r.now → request_of result r.now.out ≡ Ok r.now }
{
    packet(r)
}

// The srb of a request: its lengths, its direction by the command, and the command itself.
fn packet(r: &DiskRequest) -> Vstor
    requires built { IsSome (command_of r.now.cdb) }
    requires few { bytes_moved (command_of r.now.cdb) (length r.now.out) ≤ 4096 }
    ensures value { result ≡ ask_of r.now }
    ensures len { length r.now.cdb ≡ 16 }
{
    let Some(command) = Command::of(&r.cdb) else {
        unreachable!()
    };
    let mut rest = [0; 52];
    srb::put(&mut rest, LENGTH, 52);
    srb::put(&mut rest, CDB_LENGTH, command_length(&r.cdb));
    srb::put(&mut rest, SENSE_INFO_LENGTH, 20);
    srb::put(&mut rest, DATA_IN, direction(command));
    srb::put(
        &mut rest,
        DATA_TRANSFER_LENGTH,
        transfer(command, r.out.bytes().len() as u64),
    );
    srb::put_part(&mut rest, CDB, &r.cdb);
    Vstor {
        operation: 3,
        flags: 1,
        status: 0,
        rest,
    }
}

/// The reply in a completion, with the bytes that came back (none for a write). `None` where
/// srb_status is neither 1, success, nor 0x84, an error with sense.
pub fn srb_done(p: &Vstor, back: &[u8]) -> Option<DiskReply>
    ensures { result ≡ done_of p.now back.now }
{
    match srb_end(p) {
        Some(SrbEnd::Done { moved }) => {
            let most = moved.min(4096) as usize;
            Some(DiskReply::Good(Chunk::of(&back[..most.min(back.len())])))
        }
        Some(SrbEnd::Refused { key, asc, ascq }) => Some(DiskReply::Check { key, asc, ascq }),
        None => None,
    }
}

/// How a completion says that its srb ended, whatever bytes came back. `None` where srb_status is
/// neither 1 nor 0x84.
pub fn srb_end(p: &Vstor) -> Option<SrbEnd>
    ensures { (back : List ℕ) → done_of p.now back ≡ reply_at result back }
{
    match srb::get(&p.rest, SRB_STATUS) {
        1 => Some(SrbEnd::Done {
            moved: srb::get(&p.rest, DATA_TRANSFER_LENGTH),
        }),
        0x84 => Some(SrbEnd::Refused {
            key: p.rest[18],
            asc: p.rest[28],
            ascq: p.rest[29],
        }),
        _ => None,
    }
}

/// How many bytes a command has, by its code.
fn command_length(cdb: &[u8; 16]) -> u64
    ensures value { result ≡ cdb_length cdb.now }
    ensures few { result < 256 }
{
    match cdb[0] {
        0x00 | 0x12 => 6,
        0x88 | 0x8a | 0x9e => 16,
        _ => 10,
    }
}

/// 1 for a command that gives bytes, else 0.
fn direction(command: Command) -> u64
    ensures value { result ≡ data_in (Some command) }
    ensures few { result < 256 }
{
    match command {
        Command::Inquiry { .. }
        | Command::ReadCapacity
        | Command::Read { .. }
        | Command::LongCapacity { .. } => 1,
        _ => 0,
    }
}

/// How many bytes of a command go or may come, where so many go.
fn transfer(command: Command, out: u64) -> u64
    requires { bytes_moved (Some command) out ≤ 4096 }
    ensures { result ≡ bytes_moved (Some command) out }
{
    match command {
        Command::Inquiry { allocation, .. } => allocation.min(36),
        Command::ReadCapacity => 8,
        Command::Read { count, .. } => 512 * count,
        Command::Write { .. } => out,
        Command::LongCapacity { allocation, .. } => allocation.min(32),
        _ => 0,
    }
}
