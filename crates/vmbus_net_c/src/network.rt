//! NVSP and Remote NDIS messages.
ghost use Rattle.std.specs.Prelude.{◌≡◌, ◌≢◌, ◌≤◌, ◌<◌, Some, length, take, drop};
ghost use Rattle.net_dev.specs.Nvsp.{IsNvsp, nvsp_fault};
ghost use Rattle.net_dev.specs.declared.nvsp.Nvsp.{Nvsp as NvspMessage};
ghost use Rattle.net_dev.specs.declared.fault.NvspFault.{NvspFault as ANvspFault};
ghost use Rattle.rndis_msg.specs.Grammar.{BeginsWith};
ghost use Rattle.rndis_msg.specs.Faults.{first_fault};
ghost use Rattle.rndis_msg.specs.Messages.{body_of};
ghost use Rattle.rndis_msg.specs.declared.rndis.Rndis.{Rndis as RndisMessage};
ghost use Rattle.rndis_msg.specs.declared.fault.RndisFault.{RndisFault as ARndisFault};
ghost use Rattle.vmbus_net_c.specs.Network.{nvsp_bare, nvsp_fields, nvsp_number, nvsp_told, rndis_bare, rndis_fields, rndis_number, rndis_told};

use net_dev::{Nvsp, NvspFault, decode_nvsp};
use rndis_msg::{FieldName, Rndis, RndisFault, Small, decode};
use vmbus_fault::VmbusFault;

/// The numbers of an NVSP message (Linux `drivers/net/hyperv/hyperv_net.h`, struct `nvsp_message`). Those that its type doesn't have are 0.
#[repr(C)]
#[derive(Clone, Copy, PartialEq, Eq)]
pub struct VmbusNvsp {
    /// The type.
    pub kind: u32,
    pub min: u32,
    pub max: u32,
    pub version: u32,
    pub mdl_chain_length: u32,
    pub status: u32,
    pub major: u32,
    pub minor: u32,
    pub gpadl: u32,
    pub id: u32,
    pub count: u32,
    pub offset: u32,
    pub sub_alloc_size: u32,
    pub num_sub_allocs: u32,
    pub end_offset: u32,
    pub section_size: u32,
    pub channel_type: u32,
    pub section_index: u32,
}

/// The numbers of a Remote NDIS message. Those that its type doesn't have are 0.
#[repr(C)]
#[derive(Clone, Copy, PartialEq, Eq)]
pub struct VmbusRndis {
    /// The type.
    pub kind: u32,
    pub request_id: u32,
    pub major: u32,
    pub minor: u32,
    pub max_transfer: u32,
    pub status: u32,
    pub device_flags: u32,
    pub medium: u32,
    pub max_packets: u32,
    pub alignment: u32,
    pub oid: u32,
    pub addressing_reset: u32,
    /// How many bytes its buffer has, 1,514 at most.
    pub body_len: u32,
}

// A message of this type, and nothing else.
fn nvsp_bare(kind: u32) -> VmbusNvsp
    ensures { result ≡ nvsp_bare kind }
{
    VmbusNvsp {
        kind,
        min: 0,
        max: 0,
        version: 0,
        mdl_chain_length: 0,
        status: 0,
        major: 0,
        minor: 0,
        gpadl: 0,
        id: 0,
        count: 0,
        offset: 0,
        sub_alloc_size: 0,
        num_sub_allocs: 0,
        end_offset: 0,
        section_size: 0,
        channel_type: 0,
        section_index: 0,
    }
}

// A message of this type, and nothing else.
fn rndis_bare(kind: u32) -> VmbusRndis
    ensures { result ≡ rndis_bare kind }
{
    VmbusRndis {
        kind,
        request_id: 0,
        major: 0,
        minor: 0,
        max_transfer: 0,
        status: 0,
        device_flags: 0,
        medium: 0,
        max_packets: 0,
        alignment: 0,
        oid: 0,
        addressing_reset: 0,
        body_len: 0,
    }
}

// The numbers of a message.
pub(crate) fn nvsp_fields(m: &Nvsp) -> VmbusNvsp
    ensures { result ≡ nvsp_fields m.now }
{
    match *m {
        Nvsp::Init { min, max } => VmbusNvsp {
            min,
            max,
            ..nvsp_bare(1)
        },
        Nvsp::InitComplete {
            version,
            mdl_chain_length,
            status,
        } => VmbusNvsp {
            version,
            mdl_chain_length,
            status,
            ..nvsp_bare(2)
        },
        Nvsp::NdisVersion { major, minor } => VmbusNvsp {
            major,
            minor,
            ..nvsp_bare(100)
        },
        Nvsp::ReceiveBuffer { gpadl, id } => VmbusNvsp {
            gpadl,
            id: u32::from(id),
            ..nvsp_bare(101)
        },
        Nvsp::ReceiveBufferComplete {
            status,
            count,
            offset,
            sub_alloc_size,
            num_sub_allocs,
            end_offset,
        } => VmbusNvsp {
            status,
            count,
            offset,
            sub_alloc_size,
            num_sub_allocs,
            end_offset,
            ..nvsp_bare(102)
        },
        Nvsp::SendBuffer { gpadl, id } => VmbusNvsp {
            gpadl,
            id: u32::from(id),
            ..nvsp_bare(104)
        },
        Nvsp::SendBufferComplete {
            status,
            section_size,
        } => VmbusNvsp {
            status,
            section_size,
            ..nvsp_bare(105)
        },
        Nvsp::RndisPacket {
            channel_type,
            section_index,
            section_size,
        } => VmbusNvsp {
            channel_type,
            section_index,
            section_size,
            ..nvsp_bare(107)
        },
        Nvsp::RndisPacketComplete { status } => VmbusNvsp {
            status,
            ..nvsp_bare(108)
        },
    }
}

// The numbers of a message.
pub(crate) fn rndis_fields(m: &Rndis) -> VmbusRndis
    ensures { result ≡ rndis_fields m.now }
{
    match m {
        Rndis::Packet { body } => VmbusRndis {
            body_len: body.bytes().len() as u32,
            ..rndis_bare(1)
        },
        Rndis::Initialize {
            request_id,
            major,
            minor,
            max_transfer,
        } => VmbusRndis {
            request_id: *request_id,
            major: *major,
            minor: *minor,
            max_transfer: *max_transfer,
            ..rndis_bare(2)
        },
        Rndis::InitializeComplete {
            request_id,
            status,
            major,
            minor,
            device_flags,
            medium,
            max_packets,
            max_transfer,
            alignment,
        } => VmbusRndis {
            request_id: *request_id,
            status: *status,
            major: *major,
            minor: *minor,
            device_flags: *device_flags,
            medium: *medium,
            max_packets: *max_packets,
            max_transfer: *max_transfer,
            alignment: *alignment,
            ..rndis_bare(2147483650)
        },
        Rndis::Halt { request_id } => VmbusRndis {
            request_id: *request_id,
            ..rndis_bare(3)
        },
        Rndis::Query {
            request_id,
            oid,
            body,
        } => VmbusRndis {
            request_id: *request_id,
            oid: *oid,
            body_len: body.bytes().len() as u32,
            ..rndis_bare(4)
        },
        Rndis::QueryComplete {
            request_id,
            status,
            body,
        } => VmbusRndis {
            request_id: *request_id,
            status: *status,
            body_len: body.bytes().len() as u32,
            ..rndis_bare(2147483652)
        },
        Rndis::Set {
            request_id,
            oid,
            body,
        } => VmbusRndis {
            request_id: *request_id,
            oid: *oid,
            body_len: body.bytes().len() as u32,
            ..rndis_bare(5)
        },
        Rndis::SetComplete { request_id, status } => VmbusRndis {
            request_id: *request_id,
            status: *status,
            ..rndis_bare(2147483653)
        },
        Rndis::Reset => rndis_bare(6),
        Rndis::ResetComplete {
            status,
            addressing_reset,
        } => VmbusRndis {
            status: *status,
            addressing_reset: *addressing_reset,
            ..rndis_bare(2147483654)
        },
        Rndis::Keepalive { request_id } => VmbusRndis {
            request_id: *request_id,
            ..rndis_bare(8)
        },
        Rndis::KeepaliveComplete { request_id, status } => VmbusRndis {
            request_id: *request_id,
            status: *status,
            ..rndis_bare(2147483656)
        },
    }
}

// Writes bytes at the front of a buffer.
fn put(body: &Small, out: &mut [u8])
    requires { 1514 ≤ length out.old }
    ensures front { take (length body.now) out.new ≡ body.now }
    ensures rest { drop (length body.now) out.new ≡ drop (length body.now) out.old }
{
    let bytes = body.bytes();
    out[..bytes.len()].copy_from_slice(bytes);
}

// Writes the buffer of a message, where it has one.
fn put_body(m: &Rndis, out: &mut [u8])
    requires { 1514 ≤ length out.old }
    ensures front { take (length (body_of m.now)) out.new ≡ body_of m.now }
    ensures rest { drop (length (body_of m.now)) out.new ≡ drop (length (body_of m.now)) out.old }
{
    match m {
        Rndis::Packet { body } => put(body, out),
        Rndis::Query { body, .. } => put(body, out),
        Rndis::QueryComplete { body, .. } => put(body, out),
        Rndis::Set { body, .. } => put(body, out),
        _ => {}
    }
}

// The number of a refusal.
fn nvsp_number(fault: &NvspFault) -> u32
    ensures value { result ≡ nvsp_number fault.now }
    ensures some { result ≢ 0 }
{
    match fault {
        NvspFault::Short { .. } => 1,
        NvspFault::Unknown { .. } => 2,
    }
}

// The numbers of a refusal.
fn nvsp_told(fault: &NvspFault) -> VmbusFault
    ensures { result ≡ nvsp_told fault.now }
{
    match *fault {
        NvspFault::Short { have, need } => VmbusFault {
            have,
            need,
            field: 0,
            value: 0,
        },
        NvspFault::Unknown { kind } => VmbusFault {
            have: 0,
            need: 0,
            field: 0,
            value: u64::from(kind),
        },
    }
}

// The number of a refusal.
fn rndis_number(fault: &RndisFault) -> u32
    ensures value { result ≡ rndis_number fault.now }
    ensures some { (result ≢ 0) × (result < 5) }
{
    match fault {
        RndisFault::Short { .. } => 1,
        RndisFault::Unknown { .. } => 2,
        RndisFault::Long { .. } => 3,
        RndisFault::Field { .. } => 4,
    }
}

// The numbers of a refusal.
fn rndis_told(fault: &RndisFault) -> VmbusFault
    ensures { result ≡ rndis_told fault.now }
{
    match *fault {
        RndisFault::Short { have, need } => VmbusFault {
            have,
            need,
            field: 0,
            value: 0,
        },
        RndisFault::Unknown { kind } => VmbusFault {
            have: 0,
            need: 0,
            field: 0,
            value: u64::from(kind),
        },
        RndisFault::Long { have } => VmbusFault {
            have,
            need: 0,
            field: 0,
            value: 0,
        },
        RndisFault::Field {
            name: FieldName::Offset,
            value,
        } => VmbusFault {
            have: 0,
            need: 0,
            field: 1,
            value,
        },
        RndisFault::Field {
            name: FieldName::Length,
            value,
        } => VmbusFault {
            have: 0,
            need: 0,
            field: 2,
            value,
        },
    }
}

/// Reads the NVSP message with which the bytes begin, and answers 0; what stands behind its fields isn't looked at. Otherwise it answers the number of the first
/// fault and tells its numbers: 1 short (`have` and `need` bytes), 2 unknown (`value` is the type).
#[unsafe(no_mangle)]
pub extern "C" fn vmbus_nvsp_read(
    bytes: &[u8],
    message: &mut VmbusNvsp,
    fault: &mut VmbusFault,
) -> u32
    ensures read { result ≡ 0 → (m : NvspMessage) × (IsNvsp m bytes.now × (message.new ≡ nvsp_fields m)) }
    ensures only { (m : NvspMessage) → IsNvsp m bytes.now → (result ≡ 0) × (message.new ≡ nvsp_fields m) }
    ensures fault { result ≢ 0 → (e : ANvspFault) × ((nvsp_fault bytes.now ≡ Some e) × (result ≡ nvsp_number e) × (fault.new ≡ nvsp_told e)) }
    ensures kept { (result ≢ 0 → message.new ≡ message.old) × (result ≡ 0 → fault.new ≡ fault.old) }
{
    match decode_nvsp(bytes) {
        Ok(m) => {
            *message = nvsp_fields(&m);
            0
        }
        Err(e) => {
            *fault = nvsp_told(&e);
            nvsp_number(&e)
        }
    }
}

/// Reads the Remote NDIS message with which the bytes begin, writes its buffer to `body`, and answers 0; what follows the message is padding. Otherwise it
/// answers the number of the first fault and tells its numbers: 1 short (`have` and `need` bytes), 2 unknown (`value` is the type), 3 long (`have` bytes), 4 a field
/// (`field` 1 is the buffer's offset and 2 its length, of this `value`). Where `body` has less than 1,514 bytes it answers 5, and looks at nothing.
#[unsafe(no_mangle)]
pub extern "C" fn vmbus_rndis_read(
    bytes: &[u8],
    message: &mut VmbusRndis,
    body: &mut [u8],
    fault: &mut VmbusFault,
) -> u32
    ensures read { result ≡ 0 → (m : RndisMessage) × (BeginsWith m bytes.now × (message.new ≡ rndis_fields m) × (take (length (body_of m)) body.new ≡ body_of m)) }
    ensures only { 1514 ≤ length body.old → (m : RndisMessage) → BeginsWith m bytes.now → (result ≡ 0) × (message.new ≡ rndis_fields m) }
    ensures fault { result ≢ 0 → result ≢ 5 → (e : ARndisFault) × ((first_fault bytes.now ≡ Some e) × (result ≡ rndis_number e) × (fault.new ≡ rndis_told e)) }
    ensures kept { result ≢ 0 → (message.new ≡ message.old) × (body.new ≡ body.old) }
    ensures rest { result ≡ 0 → drop message.new.body_len body.new ≡ drop message.new.body_len body.old }
    ensures faultless { result ≡ 0 → fault.new ≡ fault.old }
    ensures room { length body.old < 1514 → (result ≡ 5) × (fault.new ≡ fault.old) }
    ensures five { result ≡ 5 → length body.old < 1514 }
{
    if body.len() < 1514 {
        return 5;
    }
    match decode(bytes) {
        Ok(m) => {
            *message = rndis_fields(&m);
            put_body(&m, body);
            0
        }
        Err(e) => {
            *fault = rndis_told(&e);
            rndis_number(&e)
        }
    }
}
