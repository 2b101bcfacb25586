//! The host's side of an srb.
ghost use Rattle.std.specs.Prelude.{◌≡◌, ◌≢◌, ◌≤◌, ◌<◌, ℕ, List, IsOk, IfSome, Err, Some, None, length, take, drop};
ghost use Rattle.scsi_disk.specs.Commands.{command_of};
ghost use Rattle.scsi_disk.specs.declared.command.Command.{Command as ACommand};
ghost use Rattle.scsi_disk.specs.declared.reply.DiskReply.TheVariants.{Check};
ghost use Rattle.stor_proto.specs.Fields.{number_at};
ghost use Rattle.stor_proto.specs.Packets.{vstor_bytes};
ghost use Rattle.stor_proto.specs.Srbs.{cdb_in, completed, good_srb, reply_of, request_of, stop_of};
ghost use Rattle.stor_proto.specs.declared.stop.SrbStop.{SrbStop as Stop};
ghost use Rattle.stor_proto.specs.declared.vstor.Vstor.{Vstor as Packet};
ghost use Rattle.vmbus_stor_c.specs.Storage.{IsGood, IsSrb, asked_of, stopped_of};

use crate::storage::put_packet;
use scsi_disk::{Chunk, Command, DiskReply};
use stor_proto::{Vstor, decode_vstor, srb_command, srb_reply, srb_stop, srb_stopped};
use wire_table::get_at;

/// What a disk is asked. Numbers that a command doesn't have are 0.
#[repr(C)]
#[derive(Clone, Copy)]
pub struct VmbusDiskAsked {
    /// 0 where the command isn't built, 1 TEST UNIT READY, 2 INQUIRY, 3 READ CAPACITY (10), 4 READ, 5 WRITE, 6 SYNCHRONIZE CACHE, 7 code 9E.
    pub command: u32,
    /// The srb's data_transfer_length: how many bytes go, or may come.
    pub transfer: u32,
    /// Of an INQUIRY: no vital product data and no page is asked for. Of code 9E: its service action is READ CAPACITY (16).
    pub plain: u32,
    /// The status with which the srb has to be stopped, or 0: 0x20 where it names another device, 4 where its command has more than 16 bytes.
    pub stop: u32,
    /// How many bytes may come back at most.
    pub allocation: u64,
    /// The first block.
    pub lba: u64,
    /// How many blocks.
    pub count: u64,
}

// A command's numbers.
fn asked(command: Option<Command>, transfer: u32, stop: u32) -> VmbusDiskAsked
    ensures { result ≡ asked_of command transfer stop }
{
    let none = VmbusDiskAsked {
        command: 0,
        transfer,
        plain: 0,
        stop,
        allocation: 0,
        lba: 0,
        count: 0,
    };
    let Some(command) = command else {
        return none;
    };
    match command {
        Command::TestUnitReady => VmbusDiskAsked { command: 1, ..none },
        Command::Inquiry {
            standard,
            allocation,
        } => VmbusDiskAsked {
            command: 2,
            plain: u32::from(standard),
            allocation,
            ..none
        },
        Command::ReadCapacity => VmbusDiskAsked { command: 3, ..none },
        Command::Read { lba, count } => VmbusDiskAsked {
            command: 4,
            lba,
            count,
            ..none
        },
        Command::Write { lba, count } => VmbusDiskAsked {
            command: 5,
            lba,
            count,
            ..none
        },
        Command::SynchronizeCache => VmbusDiskAsked { command: 6, ..none },
        Command::LongCapacity { built, allocation } => VmbusDiskAsked {
            command: 7,
            plain: u32::from(built),
            allocation,
            ..none
        },
    }
}

// The status with which an srb has to be stopped, or 0.
fn stop(p: &Vstor) -> u32
    requires { p.now.operation ≡ 3 }
    ensures { result ≡ stopped_of p.now }
{
    match srb_stopped(p) {
        Some(stop) => u32::from(stop.status),
        None => 0,
    }
}

// The SCSI request with which the bytes begin, if they begin with one.
fn srb(bytes: &[u8]) -> Option<Vstor>
    ensures is { IfSome result (λ p. IsSrb p bytes.now) }
    ensures only { (p : Packet) → IsSrb p bytes.now → result ≡ Some p }
{
    let p = decode_vstor(bytes).ok()?;
    if p.operation == 3 { Some(p) } else { None }
}

/// Reads what the SCSI request asks with which the bytes begin, and answers 0. It answers 1 where they are no storage packet (`vmbus_storage_read`) or another operation than
/// 3; then `asked` stays.
#[unsafe(no_mangle)]
pub extern "C" fn vmbus_disk_asked(bytes: &[u8], asked: &mut VmbusDiskAsked) -> u32
    ensures read { (p : Packet) → IsSrb p bytes.now → (result ≡ 0) × (asked.new ≡ asked_of (command_of (cdb_in p)) (number_at 12 4 p.rest) (stopped_of p)) }
    ensures only { result ≢ 1 → (p : Packet) × IsSrb p bytes.now }
    ensures two { result ≤ 1 }
    ensures kept { result ≢ 0 → asked.new ≡ asked.old }
{
    let Some(p) = srb(bytes) else {
        return 1;
    };
    *asked = crate::host::asked(srb_command(&p), get_at(&p.rest, 12, 4) as u32, stop(&p));
    0
}

// The disk's reply that gives so many bytes.
fn given(back: u32) -> DiskReply
    requires { back ≤ 4096 }
    ensures { IsGood back result }
{
    DiskReply::Good(Chunk::of(&[0; 4096][..back as usize]))
}

/// Writes the answer to the SCSI request with which `bytes` begin, where the disk did it and `back` bytes come back, at the front of `out`, in 64 bytes, and answers 0. It
/// answers 1 where the bytes are no SCSI request (`vmbus_disk_asked`) or `back` is above 4,096, or else 2 where `out` has less than 64 bytes; then nothing is written.
#[unsafe(no_mangle)]
pub extern "C" fn vmbus_disk_good(bytes: &[u8], back: u32, out: &mut [u8]) -> u32
    ensures written { (p : Packet) → IsSrb p bytes.now → back ≤ 4096 → 64 ≤ length out.old → (result ≡ 0) × (take 64 out.new ≡ vstor_bytes (completed p (good_srb p back))) }
    ensures room { (p : Packet) → IsSrb p bytes.now → back ≤ 4096 → length out.old < 64 → result ≡ 2 }
    ensures only { result ≢ 1 → (back ≤ 4096) × ((p : Packet) × IsSrb p bytes.now) }
    ensures fits { result ≡ 0 → 64 ≤ length out.old }
    ensures three { result ≤ 2 }
    ensures rest { drop 64 out.new ≡ drop 64 out.old }
    ensures kept { result ≢ 0 → out.new ≡ out.old }
{
    let Some(p) = srb(bytes) else {
        return 1;
    };
    if back > 4096 {
        return 1;
    }
    if out.len() < 64 {
        return 2;
    }
    put_packet(&srb_reply(&p, &given(back)), out);
    0
}

/// Writes the answer to the SCSI request with which `bytes` begin, where the disk refused it with this sense, at the front of `out`, in 64 bytes, and answers 0. It answers 1
/// where the bytes are no SCSI request (`vmbus_disk_asked`) or one of the three numbers is above 255, or else 2 where `out` has less than 64 bytes; then nothing is written.
#[unsafe(no_mangle)]
pub extern "C" fn vmbus_disk_check(
    bytes: &[u8],
    key: u32,
    asc: u32,
    ascq: u32,
    out: &mut [u8],
) -> u32
    ensures written { (p : Packet) → IsSrb p bytes.now → key < 256 → asc < 256 → ascq < 256 → 64 ≤ length out.old → (result ≡ 0) × (take 64 out.new ≡ vstor_bytes (reply_of p (Check key asc ascq))) }
    ensures room { (p : Packet) → IsSrb p bytes.now → key < 256 → asc < 256 → ascq < 256 → length out.old < 64 → result ≡ 2 }
    ensures only { result ≢ 1 → (key < 256) × (asc < 256) × (ascq < 256) × ((p : Packet) × IsSrb p bytes.now) }
    ensures fits { result ≡ 0 → 64 ≤ length out.old }
    ensures three { result ≤ 2 }
    ensures rest { drop 64 out.new ≡ drop 64 out.old }
    ensures kept { result ≢ 0 → out.new ≡ out.old }
{
    let Some(p) = srb(bytes) else {
        return 1;
    };
    if key > 255 || asc > 255 || ascq > 255 {
        return 1;
    }
    if out.len() < 64 {
        return 2;
    }
    let reply = DiskReply::Check {
        key: key as u8,
        asc: asc as u8,
        ascq: ascq as u8,
    };
    put_packet(&srb_reply(&p, &reply), out);
    0
}

/// Writes the answer to the SCSI request with which `bytes` begin, where it is stopped with this srb_status, at the front of `out`, in 64 bytes, and answers 0. It answers 1
/// where the bytes are no SCSI request (`vmbus_disk_asked`) or the status is above 255, or else 2 where `out` has less than 64 bytes; then nothing is written.
#[unsafe(no_mangle)]
pub extern "C" fn vmbus_disk_stop(bytes: &[u8], status: u32, out: &mut [u8]) -> u32
    ensures written { (p : Packet) → IsSrb p bytes.now → status < 256 → 64 ≤ length out.old → (result ≡ 0) × (take 64 out.new ≡ vstor_bytes (stop_of p status)) }
    ensures room { (p : Packet) → IsSrb p bytes.now → status < 256 → length out.old < 64 → result ≡ 2 }
    ensures only { result ≢ 1 → (status < 256) × ((p : Packet) × IsSrb p bytes.now) }
    ensures fits { result ≡ 0 → 64 ≤ length out.old }
    ensures three { result ≤ 2 }
    ensures rest { drop 64 out.new ≡ drop 64 out.old }
    ensures kept { result ≢ 0 → out.new ≡ out.old }
{
    let Some(p) = srb(bytes) else {
        return 1;
    };
    if status > 255 {
        return 1;
    }
    if out.len() < 64 {
        return 2;
    }
    put_packet(&srb_stop(&p, status as u8), out);
    0
}
