//! Storage packets.
ghost use Rattle.std.specs.Prelude.{◌≡◌, ◌≢◌, ◌≤◌, ◌<◌, ◌↔◌, IsTrue, Some, length, take, drop};
ghost use Rattle.stor_proto.specs.Packets.{IsAllowed, InForm, vstor_bytes, vstor_fault};
ghost use Rattle.stor_proto.specs.declared.vstor.Vstor.{Vstor as Packet};
ghost use Rattle.stor_proto.specs.declared.fault.VstorFault.{VstorFault as Fault};
ghost use Rattle.vmbus_stor_c.specs.Storage.{fields_of, number_of, packet_of};

use stor_proto::{Operation, Vstor, VstorFault, decode_vstor, encode_vstor};
use vmbus_fault::put_front;
use wire_table::array_at;

/// The numbers of a storage packet (Linux `drivers/scsi/storvsc_drv.c`, struct `vstor_packet`). 52 bytes follow them: an srb, a version, properties or a count.
#[repr(C)]
#[derive(Clone, Copy)]
pub struct VmbusStorage {
    /// What is asked, or 1 in an answer.
    pub operation: u32,
    /// 1 asks for a completion.
    pub flags: u32,
    /// Of an answer: 0 is success.
    pub status: u32,
}

// The numbers of a packet.
fn fields(p: &Vstor) -> VmbusStorage
    ensures { result ≡ fields_of p.now }
{
    VmbusStorage {
        operation: p.operation,
        flags: p.flags,
        status: p.status,
    }
}

// The number of a refusal.
fn number(fault: &VstorFault) -> u32
    ensures value { result ≡ number_of fault.now }
    ensures some { result ≢ 0 }
{
    match fault {
        VstorFault::Short { .. } => 1,
        VstorFault::Operation { .. } => 2,
        VstorFault::Field { .. } => 3,
    }
}

// Writes a packet at the front of a buffer.
pub(crate) fn put_packet(p: &Vstor, out: &mut [u8])
    requires allowed { IsAllowed p.now }
    requires room { 64 ≤ length out.old }
    ensures front { take 64 out.new ≡ vstor_bytes p.now }
    ensures rest { drop 64 out.new ≡ drop 64 out.old }
{
    let bytes = encoded(p);
    put_front(out, &bytes);
}

// The bytes of a packet.
fn encoded(p: &Vstor) -> [u8; 64]
    requires { IsAllowed p.now }
    ensures bytes { result ≡ vstor_bytes p.now }
    ensures len { length result ≡ 64 }
{
    let mut bytes = [0; 64];
    encode_vstor(p, &mut bytes);
    bytes
}

// Whether a packet may be written: there is such an operation, and only an answer has a status.
fn is_allowed(p: &Vstor) -> bool
    ensures { IsTrue result ↔ IsAllowed p.now }
{
    Operation::of(p.operation).is_some() && (p.operation == 1 || p.status == 0)
}

/// Writes the storage packet of these numbers and 52 bytes at the front of `out`, in 64 bytes, and answers 0. It answers 1 where `bytes` isn't 52 bytes, there is no such
/// operation, or a request has a status that isn't 0, or else 2 where `out` has less than 64 bytes; then nothing is written.
#[unsafe(no_mangle)]
pub extern "C" fn vmbus_storage_write(packet: &VmbusStorage, bytes: &[u8], out: &mut [u8]) -> u32
    ensures written { length bytes.now ≡ 52 → IsAllowed (packet_of packet.now bytes.now) → 64 ≤ length out.old → (result ≡ 0) × (take 64 out.new ≡ vstor_bytes (packet_of packet.now bytes.now)) }
    ensures room { length bytes.now ≡ 52 → IsAllowed (packet_of packet.now bytes.now) → length out.old < 64 → result ≡ 2 }
    ensures only { result ≢ 1 → (length bytes.now ≡ 52) × IsAllowed (packet_of packet.now bytes.now) }
    ensures fits { result ≡ 0 → 64 ≤ length out.old }
    ensures three { result ≤ 2 }
    ensures rest { drop 64 out.new ≡ drop 64 out.old }
    ensures kept { result ≢ 0 → out.new ≡ out.old }
{
    if bytes.len() != 52 {
        return 1;
    }
    let p = packet_of(packet, bytes);
    if !is_allowed(&p) {
        return 1;
    }
    if out.len() < 64 {
        return 2;
    }
    put_packet(&p, out);
    0
}

// The packet of these numbers and bytes.
fn packet_of(v: &VmbusStorage, bytes: &[u8]) -> Vstor
    requires { length bytes.now ≡ 52 }
    ensures { result ≡ packet_of v.now bytes.now }
{
    Vstor {
        operation: v.operation,
        flags: v.flags,
        status: v.status,
        rest: array_at(bytes, 0),
    }
}

/// Reads the storage packet with which the bytes begin, and answers 0; what follows its 64 bytes is data. Otherwise it answers the number of the first fault: 1 fewer
/// bytes, 2 an operation that there isn't, 3 a request whose status isn't 0.
#[unsafe(no_mangle)]
pub extern "C" fn vmbus_storage_read(bytes: &[u8], packet: &mut VmbusStorage) -> u32
    ensures read { result ≡ 0 → (p : Packet) × (InForm p × IsAllowed p × (take 64 bytes.now ≡ vstor_bytes p) × (packet.new ≡ fields_of p)) }
    ensures only { (p : Packet) → InForm p → IsAllowed p → take 64 bytes.now ≡ vstor_bytes p → (result ≡ 0) × (packet.new ≡ fields_of p) }
    ensures fault { result ≢ 0 → (e : Fault) × ((vstor_fault bytes.now ≡ Some e) × (result ≡ number_of e)) }
    ensures kept { result ≢ 0 → packet.new ≡ packet.old }
{
    match decode_vstor(bytes) {
        Ok(p) => {
            *packet = fields(&p);
            0
        }
        Err(e) => number(&e),
    }
}
