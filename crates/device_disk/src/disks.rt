//! Storage packets of 64 bytes in the packets of a disk's channel. The guest's ask for a completion.
//!
//! Source: Linux 6.12, `drivers/scsi/storvsc_drv.c`.
ghost use Rattle.std.specs.Prelude.{◌≡◌, ◌≤◌, [], length, take, true, false, MatchOption};
ghost use Rattle.ring_machine.specs.States.{IsPacket};
ghost use Rattle.stor_proto.specs.Packets.{IsAllowed, vstor_bytes};
ghost use Rattle.device_packets.specs.Said.{vstor_of, has_vstor};
ghost use Rattle.disk_format.specs.Disks.{sent_packet, done_packet, start_vstor as start_of, disk_start};

use device_packets::payload;
use disk_format::DiskStep;
use pkt_desc::{build_comp, build_inband};
use stor_proto::{Operation, Vstor, decode_vstor, encode_vstor, start_up};
use vm_page::bytes_of;

/// The bytes of a storage packet.
pub(crate) fn spelled(v: &Vstor) -> [u8; 64]
    requires { IsAllowed v.now }
    ensures { result ≡ vstor_bytes v.now }
{
    let mut bytes = [0; 64];
    encode_vstor(v, &mut bytes);
    bytes
}

/// Writes a packet of the guest with a storage packet, which asks for a completion: its words.
#[tactic(auto, unfolding(disk_format::specs::Disks::sent_packet))]
pub(crate) fn write_sent(id: u64, v: &Vstor, out: &mut [u64]) -> usize
    requires allowed { IsAllowed v.now }
    requires out { length out.old ≡ 384 }
    ensures packet { take result out.new ≡ sent_packet id v.now [] }
    ensures is_packet { IsPacket (take result out.new) }
    ensures most { result ≤ 384 }
{
    build_inband(out, id, 1, &spelled(v))
}

/// Writes a packet of the host with a storage packet: its words.
#[tactic(auto, unfolding(disk_format::specs::Disks::done_packet))]
pub(crate) fn write_done(id: u64, v: &Vstor, out: &mut [u64]) -> usize
    requires allowed { IsAllowed v.now }
    requires out { length out.old ≡ 384 }
    ensures packet { take result out.new ≡ done_packet id v.now [] }
    ensures is_packet { IsPacket (take result out.new) }
    ensures most { result ≤ 384 }
{
    build_comp(out, id, &spelled(v))
}

/// The storage packet of a step of the start-up.
fn start_packet(step: DiskStep) -> Vstor
    ensures value { result ≡ start_of step }
    ensures allowed { IsAllowed result }
{
    match step {
        DiskStep::Begin => start_up(Operation::BeginInitialization, 0),
        DiskStep::Version => start_up(Operation::QueryProtocolVersion, 0x0602),
        DiskStep::Properties => start_up(Operation::QueryProperties, 0),
        DiskStep::End => start_up(Operation::EndInitialization, 0),
        DiskStep::SubChannels(count) => start_up(Operation::CreateSubChannels, count),
    }
}

/// Writes the packet of a step of the start-up under an id: its words.
#[tactic(auto, unfolding(disk_format::specs::Disks::disk_start))]
pub(crate) fn write_start(step: DiskStep, id: u64, out: &mut [u64]) -> usize
    requires out { length out.old ≡ 384 }
    ensures packet { take result out.new ≡ disk_start id step }
    ensures is_packet { IsPacket (take result out.new) }
    ensures most { result ≤ 384 }
{
    write_sent(id, &start_packet(step), out)
}

/// The storage packet with which a packet's payload begins, if it does. No more than its 64 bytes are read.
pub(crate) fn front(packet: &[u64]) -> Option<Vstor>
    requires { IsPacket packet.now }
    ensures { MatchOption result (has_vstor packet.now ≡ false)
        (λ v. (has_vstor packet.now ≡ true) × (v ≡ vstor_of packet.now) × IsAllowed v) }
{
    let payload = payload(packet);
    if payload.len() < 8 {
        return None;
    }
    let mut bytes = [0; 64];
    bytes_of(payload, &mut bytes);
    match decode_vstor(&bytes) {
        Ok(v) => Some(v),
        Err(_) => None,
    }
}
