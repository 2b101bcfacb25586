//! The host's side of an srb: the disk's request in it, and the answer.
ghost use Rattle.std.specs.Prelude.{◌≡◌, ◌<◌, ◌≤◌, ◌^◌, List, ℕ, IsOk, MatchOption, length, take};
ghost use Rattle.scsi_disk.specs.Commands.{command_of};
ghost use Rattle.stor_proto.specs.Fields.{number_at};
ghost use Rattle.stor_proto.specs.Srbs.{cdb_in, data_for, names_disk, request_of, moved_by, sense_of};
ghost use Rattle.stor_proto.specs.Srbs.{good_srb, check_srb, reply_of, stop_of, completed, IsReadBack};

use crate::srb::{
    self, CDB, CDB_LENGTH, DATA_TRANSFER_LENGTH, LUN, PATH, SCSI_STATUS, SENSE_INFO_LENGTH,
    SRB_STATUS, TARGET,
};
use crate::{SrbStop, Vstor};
use scsi_disk::{Chunk, Command, DiskReply, DiskRequest};
use wire_table::array_at;

/// The disk's request in an srb with the bytes that came. An srb for another device is refused with
/// 0x20, and else one with a command above 16 bytes with 4. Only a write takes bytes: as many as
/// data_transfer_length says, or all where there are fewer.
pub fn srb_request(p: &Vstor, out: Chunk) -> Result<DiskRequest, SrbStop>
    requires { p.now.operation ≡ 3 }
    ensures { result ≡ request_of p.now out }
{
    match srb_stopped(p) {
        Some(stop) => Err(stop),
        None => Ok(srb_asks(p, out.bytes())),
    }
}

/// Why an srb doesn't reach the disk, if it doesn't: with 0x20 for another device, and else with 4
/// for a command above 16 bytes. It is the same whatever bytes come with it.
pub fn srb_stopped(p: &Vstor) -> Option<SrbStop>
    requires { p.now.operation ≡ 3 }
    ensures { MatchOption result ((out : List ℕ) → IsOk (request_of p.now out))
        (λ stop. (out : List ℕ) → request_of p.now out ≡ Err stop) }
{
    if !is_for_disk(p) {
        return Some(SrbStop { status: 0x20 });
    }
    if srb::get(&p.rest, CDB_LENGTH) > 16 {
        return Some(SrbStop { status: 4 });
    }
    None
}

/// The disk's request in an srb that isn't stopped, with the bytes that came.
pub fn srb_asks(p: &Vstor, out: &[u8]) -> DiskRequest
    requires srb { p.now.operation ≡ 3 }
    requires few { length out.now ≤ 4096 }
    requires reaches { IsOk (request_of p.now out.now) }
    ensures { request_of p.now out.now ≡ Ok result }
{
    DiskRequest {
        cdb: cdb(p),
        out: Chunk::of(data(p, out)),
    }
}

/// The command in an srb, or `None` where it isn't built.
pub fn srb_command(p: &Vstor) -> Option<Command>
    requires { p.now.operation ≡ 3 }
    ensures { result ≡ command_of (cdb_in p.now) }
{
    Command::of(&cdb(p))
}

/// The answer that carries the disk's reply. data_transfer_length is how many bytes moved: those
/// that come back, but of a write 512 for each of its blocks. A refusal has fixed sense.
pub fn srb_reply(p: &Vstor, r: &DiskReply) -> Vstor
    requires { p.now.operation ≡ 3 }
    ensures value { result ≡ reply_of p.now r.now }

    // The guest reads the same reply.
    ensures read_back { IsReadBack p.now r.now result }
{
    match r {
        DiskReply::Good(back) => good(p, back.bytes().len() as u64),
        DiskReply::Check { key, asc, ascq } => check(p, *key, *asc, *ascq),
    }
}

/// The answer to an srb that is stopped, with this srb_status.
pub fn srb_stop(p: &Vstor, status: u8) -> Vstor
    requires { p.now.operation ≡ 3 }
    ensures { result ≡ stop_of p.now status }
{
    let mut rest = p.rest;
    srb::put(&mut rest, SRB_STATUS, u64::from(status));
    complete(p, rest)
}

/// Whether path, target and lun are 0.
fn is_for_disk(p: &Vstor) -> bool
    ensures { result ≡ names_disk p.now }
{
    srb::get(&p.rest, PATH) == 0 && srb::get(&p.rest, TARGET) == 0 && srb::get(&p.rest, LUN) == 0
}

/// The first 16 of the 20 bytes of the command.
fn cdb(p: &Vstor) -> [u8; 16]
    ensures { result ≡ cdb_in p.now }
{
    array_at(&p.rest, CDB)
}

/// What an srb's command takes of the bytes that came.
fn data<'a>(p: &Vstor, out: &'a [u8]) -> &'a [u8]
    requires { p.now.operation ≡ 3 }
    ensures value { result.now ≡ data_for (command_of (cdb_in p.now)) (number_at 12 4 p.now.rest) out.now }
    ensures few { length result.now ≤ length out.now }
{
    match srb_command(p) {
        Some(Command::Write { .. }) => first(out, srb::get(&p.rest, DATA_TRANSFER_LENGTH)),
        _ => &[],
    }
}

/// The first bytes, at most so many.
fn first(bytes: &[u8], most: u64) -> &[u8]
    ensures value { result.now ≡ take most bytes.now }
    ensures few { length result.now ≤ length bytes.now }
{
    if most < bytes.len() as u64 {
        &bytes[..most as usize]
    } else {
        bytes
    }
}

/// How many bytes a command moved, where so many came back.
fn moved(p: &Vstor, back: u64) -> u64
    requires { back < 2 ^ 32 }
    ensures value { result ≡ moved_by (command_of (cdb_in p.now)) back }
    ensures fits { result < 2 ^ 32 }
{
    match Command::of(&cdb(p)) {
        Some(Command::Write { count, .. }) => count % 0x80_0000 * 512,
        _ => back,
    }
}

/// The answer of a disk that did a command, where so many bytes come back.
fn good(p: &Vstor, back: u64) -> Vstor
    requires { back < 2 ^ 32 }
    ensures value { result ≡ completed p.now (good_srb p.now back) }
    ensures len { length p.now.rest ≡ 52 }
{
    let mut rest = p.rest;
    srb::put(&mut rest, SRB_STATUS, 1);
    srb::put(&mut rest, SCSI_STATUS, 0);
    srb::put(&mut rest, DATA_TRANSFER_LENGTH, moved(p, back));
    complete(p, rest)
}

/// The answer of a disk that refused a command, with its sense.
fn check(p: &Vstor, key: u8, asc: u8, ascq: u8) -> Vstor
    ensures value { result ≡ completed p.now (check_srb p.now key asc ascq) }
    ensures len { length p.now.rest ≡ 52 }
{
    let mut rest = p.rest;
    srb::put(&mut rest, SRB_STATUS, 0x84);
    srb::put(&mut rest, SCSI_STATUS, 2);
    srb::put(&mut rest, SENSE_INFO_LENGTH, 18);
    srb::put(&mut rest, DATA_TRANSFER_LENGTH, 0);
    srb::put_part(&mut rest, CDB, &sense(key, asc, ascq));
    complete(p, rest)
}

/// Fixed sense (SCSI Primary Commands): current error, the key, ten further bytes, the codes.
fn sense(key: u8, asc: u8, ascq: u8) -> [u8; 18]
    ensures { result ≡ sense_of key asc ascq }
{
    [
        0x70, 0, key, 0, 0, 0, 0, 0x0a, 0, 0, 0, 0, asc, ascq, 0, 0, 0, 0,
    ]
}

/// A packet's answer, with these bytes.
fn complete(p: &Vstor, rest: [u8; 52]) -> Vstor
    ensures { result ≡ completed p.now rest }
{
    Vstor {
        operation: 1,
        flags: p.flags,
        status: p.status,
        rest,
    }
}
