//! The guest's side of an srb.
ghost use Rattle.std.specs.Prelude.{◌≡◌, ◌≢◌, ◌≤◌, ◌<◌, ◌↔◌, IsTrue, ℕ, List, IsSome, IfSome, Some, None, length, take, drop, slice_index};
ghost use Rattle.scsi_disk.specs.Commands.{command_of};
ghost use Rattle.scsi_disk.specs.declared.request.DiskRequest.{DiskRequest as Request};
ghost use Rattle.stor_proto.specs.Fields.{number_at};
ghost use Rattle.stor_proto.specs.Packets.{vstor_bytes};
ghost use Rattle.stor_proto.specs.Srbs.{ask_of, bytes_moved, done_of};
ghost use Rattle.stor_proto.specs.declared.vstor.Vstor.{Vstor as Packet};
ghost use Rattle.vmbus_stor_c.specs.Storage.{Asks, Begins, CanAsk, end_in};

use crate::storage::put_packet;
use scsi_disk::{Chunk, Command, DiskRequest};
use stor_proto::{Vstor, decode_vstor, srb_ask};
use wire_table::{array_at, get_at};

// The most bytes that one request moves.
const MOST_BYTES: u32 = 4096;

// So many bytes.
fn zeros(count: u32) -> Chunk
    requires { count ≤ 4096 }
    ensures { length result ≡ count }
{
    Chunk::of(&[0; 4096][..count as usize])
}

// Whether a command is built and moves a page at most, where so many bytes go.
fn moves_a_page(cdb: &[u8; 16], goes: u32) -> bool
    requires { goes ≤ 4096 }
    ensures { IsTrue result ↔ (IsSome (command_of cdb.now) × (bytes_moved (command_of cdb.now) goes ≤ 4096)) }
{
    match Command::of(cdb) {
        Some(Command::Read { count, .. }) => count <= 8,
        command => command.is_some(),
    }
}

// A disk's request of a command, to which so many bytes go, if it can be asked.
fn request(cdb: &[u8], goes: u32) -> Option<DiskRequest>
    ensures asks { IfSome result (λ r. Asks r cdb.now goes) }
    ensures can { IfSome result (λ r. CanAsk cdb.now goes) }
    ensures only { CanAsk cdb.now goes → IsSome result }
{
    if cdb.len() != 16 || goes > MOST_BYTES {
        return None;
    }
    let cdb = array_at(cdb, 0);
    if !moves_a_page(&cdb, goes) {
        return None;
    }
    Some(DiskRequest {
        cdb,
        out: zeros(goes),
    })
}

/// Writes the packet of a disk's request at the front of `out`, in 64 bytes, and answers 0: operation 3, flags 1, and an srb with the lengths and the direction of the command
/// in `cdb`; `goes` is how many bytes a write gives. It answers 1 where `cdb` isn't 16 bytes, its command isn't built, or more than 4,096 bytes go or come, or else 2 where
/// `out` has less than 64 bytes; then nothing is written.
#[unsafe(no_mangle)]
pub extern "C" fn vmbus_disk_ask(cdb: &[u8], goes: u32, out: &mut [u8]) -> u32
    ensures written { CanAsk cdb.now goes → (r : Request) → Asks r cdb.now goes → 64 ≤ length out.old → (result ≡ 0) × (take 64 out.new ≡ vstor_bytes (ask_of r)) }
    ensures room { CanAsk cdb.now goes → length out.old < 64 → result ≡ 2 }
    ensures only { result ≢ 1 → CanAsk cdb.now goes }
    ensures fits { result ≡ 0 → 64 ≤ length out.old }
    ensures three { result ≤ 2 }
    ensures rest { drop 64 out.new ≡ drop 64 out.old }
    ensures kept { result ≢ 0 → out.new ≡ out.old }
{
    let Some(request) = request(cdb, goes) else {
        return 1;
    };
    if out.len() < 64 {
        return 2;
    }
    put_packet(&srb_ask(&request), out);
    0
}

/// How a request of a disk ended.
#[repr(C)]
#[derive(Clone, Copy)]
pub struct VmbusDiskEnd {
    /// The srb's status: 1 is success, 0x84 a refusal with sense.
    pub status: u32,
    /// How many bytes moved.
    pub moved: u32,
    /// Of a refusal: the sense key.
    pub key: u32,
    /// The additional sense code.
    pub asc: u32,
    /// Its qualifier.
    pub ascq: u32,
}

/// Reads how the request ended whose completion these bytes begin with, and answers 0: status 1 or 0x84, and then the numbers of a sense, which otherwise are 0. It answers 1
/// where they are no storage packet (`vmbus_storage_read`), or else 2 where the status is another; then `end` stays.
#[unsafe(no_mangle)]
pub extern "C" fn vmbus_disk_end(bytes: &[u8], end: &mut VmbusDiskEnd) -> u32
    ensures read { (p : Packet) → Begins p bytes.now → (back : List ℕ) → IsSome (done_of p back) → (result ≡ 0) × (end.new ≡ end_in p) }
    ensures other { (p : Packet) → Begins p bytes.now → (back : List ℕ) → done_of p back ≡ None → result ≡ 2 }
    ensures only { result ≢ 1 → (p : Packet) × Begins p bytes.now }
    ensures three { result ≤ 2 }
    ensures kept { result ≢ 0 → end.new ≡ end.old }
{
    let Ok(p) = decode_vstor(bytes) else {
        return 1;
    };
    let status = get_at(&p.rest, 2, 1) as u32;
    if status != 1 && status != 0x84 {
        return 2;
    }
    *end = end_in(&p);
    0
}

// How the request of this completion ended.
fn end_in(p: &Vstor) -> VmbusDiskEnd
    ensures { result ≡ end_in p.now }
{
    let status = get_at(&p.rest, 2, 1) as u32;
    let moved = get_at(&p.rest, 12, 4) as u32;
    if status == 1 {
        return VmbusDiskEnd {
            status,
            moved,
            key: 0,
            asc: 0,
            ascq: 0,
        };
    }
    VmbusDiskEnd {
        status,
        moved,
        key: u32::from(p.rest[18]),
        asc: u32::from(p.rest[28]),
        ascq: u32::from(p.rest[29]),
    }
}
