//! A guest's disk, from its start-up to the answer of a read.
ghost use Rattle.std.specs.Prelude.{◌≡◌, ◌≤◌, [], ℕ, Some, Ok, length, take, slice_get, IfSome, IfNone};
ghost use Rattle.pkt_desc.specs.Packets.{Carries};
ghost use Rattle.scsi_disk.specs.declared.reply.DiskReply.{DiskReply as OneReply};
ghost use Rattle.stor_proto.specs.Packets.{vstor_bytes};
ghost use Rattle.stor_proto.specs.Srbs.{ask_of, request_of};
ghost use Rattle.stor_proto.specs.declared.vstor.Vstor.{Vstor as OneVstor};
ghost use Rattle.example_packets.specs.Disks.{start_ups, read_command, Reads, Answers};

use crate::payload::read_packet;
use pkt_desc::build_inband;
use scsi_disk::{Chunk, DiskReply, DiskRequest};
use stor_proto::{Operation, Vstor, decode_vstor, encode_vstor, srb_ask, srb_done, start_up};

/// What the guest sends at a step of the start-up, from 0 on: it begins, asks for version 6.2 and for the channel's properties, and ends. Each next step follows
/// the host's completion with status 0. None after the last (`drivers/scsi/storvsc_drv.c`, storvsc_channel_init).
pub fn start_step(step: usize) -> Option<Vstor>
    ensures { result ≡ slice_get start_ups step }
{
    match step {
        0 => Some(start_up(Operation::BeginInitialization, 0)),
        1 => Some(start_up(Operation::QueryProtocolVersion, 0x0602)),
        2 => Some(start_up(Operation::QueryProperties, 0)),
        3 => Some(start_up(Operation::EndInitialization, 0)),
        _ => None,
    }
}

// The command that reads blocks: code 28, the first block and how many, both big-endian.
fn read_command(lba: u32, count: u16) -> [u8; 16]
    ensures { result ≡ read_command lba count }
{
    let [a, b, c, d] = lba.to_be_bytes();
    let [high, low] = count.to_be_bytes();
    [0x28, 0, a, b, c, d, 0, high, low, 0, 0, 0, 0, 0, 0, 0]
}

/// The request for blocks from `lba` on.
pub fn read_blocks(lba: u32, count: u16) -> DiskRequest
    ensures { Reads lba count result }
{
    DiskRequest {
        cdb: read_command(lba, count),
        out: Chunk::empty(),
    }
}

/// Writes the packet of a read under an id, which asks for a completion, and answers how many words it has. The host reads this very request in it.
pub fn write_read(id: u64, lba: u32, count: u16, out: &mut [u64]) -> usize
    requires few { count ≤ 8 }
    requires room { 10 ≤ length out.old }
    ensures packet { (v : OneVstor) × Carries (take result out.new) 6 id 1 (vstor_bytes v) × ((q : _) × Reads lba count q × (request_of v [] ≡ Ok q)) }
{
    let srb = srb_ask(&read_blocks(lba, count));
    let mut bytes = [0; 64];
    encode_vstor(&srb, &mut bytes);
    build_inband(out, id, 1, &bytes)
}

/// What a host's completion says: the id of the request that it answers, and the disk's reply. None exactly where the words are no completion that begins with an
/// answer, or where that says neither success nor a check.
pub fn answer_in(words: &[u64]) -> Option<(u64, DiskReply)>
    requires { (2 ≤ length words.now) × (length words.now ≤ 384) }
    ensures answer { IfSome result (λ r. Answers words.now r.0 r.1) }
    ensures none { IfNone result ((id : ℕ) (reply : OneReply) → Answers words.now id reply → ⊥) }
{
    let mut bytes = [0; 3056];
    let (desc, len) = read_packet(words, &mut bytes)?;
    if desc.kind != 11 || len < 64 {
        return None;
    }
    let bytes = &bytes[..len];
    match decode_vstor(bytes) {
        Ok(packet) if packet.operation == 1 => match srb_done(&packet, bytes.split_at(64).1) {
            Some(reply) => Some((desc.tid, reply)),
            None => None,
        },
        _ => None,
    }
}
