//! NVSP messages as bytes.
ghost use Rattle.std.specs.Prelude.{◌≡◌, ◌+◌, ◌≤◌, List, ℕ, length, take, ◌++◌, IfOk, IfErr, None, Some, Ok};
ghost use Rattle.net_dev.specs.declared.nvsp.Nvsp.{Nvsp as Message};
ghost use Rattle.net_dev.specs.Nvsp.{size_of_fields, field_bytes, InForm, IsNvsp, nvsp_bytes, nvsp_fault};
ghost use Rattle.net_dev.specs.NvspReading.{Reads, Parses};

use crate::{Nvsp, NvspFault, tables};
use wire_table::{fields, get_at};

/// How many bytes the type and the fields have.
fn size_of(m: &Nvsp) -> usize
    ensures value { result ≡ size_of_fields m.now }
    ensures few { result ≤ 28 }
{
    match m {
        Nvsp::ReceiveBufferComplete { .. } => 28,
        Nvsp::InitComplete { .. } | Nvsp::RndisPacket { .. } => 16,
        Nvsp::Init { .. } | Nvsp::NdisVersion { .. } | Nvsp::SendBufferComplete { .. } => 12,
        Nvsp::ReceiveBuffer { .. } | Nvsp::SendBuffer { .. } => 10,
        Nvsp::RndisPacketComplete { .. } => 8,
    }
}

/// Writes the type and the fields of a message into as many bytes as they have.
fn write(m: &Nvsp, out: &mut [u8])
    requires { length out.old ≡ size_of_fields m.now }
    ensures bytes { take (size_of_fields m.now) out.new ≡ field_bytes m.now }
    ensures form { InForm m.now }
{
    match m {
        Nvsp::Init { min, max } => {
            let table = tables::init_table();
            fields!(put table in out: num 0 = 1u32, num 1 = *min, num 2 = *max);
        }
        Nvsp::InitComplete {
            version,
            mdl_chain_length,
            status,
        } => {
            let table = tables::init_complete_table();
            fields!(put table in out: num 0 = 2u32, num 1 = *version, num 2 = *mdl_chain_length, num 3 = *status);
        }
        Nvsp::NdisVersion { major, minor } => {
            let table = tables::ndis_version_table();
            fields!(put table in out: num 0 = 100u32, num 1 = *major, num 2 = *minor);
        }
        Nvsp::ReceiveBuffer { gpadl, id } => {
            let table = tables::receive_buffer_table();
            fields!(put table in out: num 0 = 101u32, num 1 = *gpadl, num 2 = *id);
        }
        Nvsp::ReceiveBufferComplete {
            status,
            count,
            offset,
            sub_alloc_size,
            num_sub_allocs,
            end_offset,
        } => {
            let table = tables::receive_buffer_complete_table();
            fields!(put table in out: num 0 = 102u32, num 1 = *status, num 2 = *count, num 3 = *offset, num 4 = *sub_alloc_size, num 5 = *num_sub_allocs, num 6 = *end_offset);
        }
        Nvsp::SendBuffer { gpadl, id } => {
            let table = tables::send_buffer_table();
            fields!(put table in out: num 0 = 104u32, num 1 = *gpadl, num 2 = *id);
        }
        Nvsp::SendBufferComplete {
            status,
            section_size,
        } => {
            let table = tables::send_buffer_complete_table();
            fields!(put table in out: num 0 = 105u32, num 1 = *status, num 2 = *section_size);
        }
        Nvsp::RndisPacket {
            channel_type,
            section_index,
            section_size,
        } => {
            let table = tables::rndis_packet_table();
            fields!(put table in out: num 0 = 107u32, num 1 = *channel_type, num 2 = *section_index, num 3 = *section_size);
        }
        Nvsp::RndisPacketComplete { status } => {
            let table = tables::rndis_packet_complete_table();
            fields!(put table in out: num 0 = 108u32, num 1 = *status);
        }
    }
}

/// Writes a message in 40 bytes; those behind its fields are 0.
///
/// Source: struct `nvsp_message` of Linux 6.12, `drivers/net/hyperv/hyperv_net.h`.
pub fn encode_nvsp(m: &Nvsp, out: &mut [u8; 40])
    ensures written { out.new ≡ nvsp_bytes m.now }

    // The bytes are the message's, whatever follows them.
    ensures message { (more : List ℕ) → IsNvsp m.now (out.new ++ more) }
{
    *out = [0; 40];
    write(m, &mut out[..size_of(m)]);
}

/// The message of a type.
fn read(kind: u32, bytes: &[u8]) -> Result<Nvsp, NvspFault>
    requires { 40 ≤ length bytes.now }
    ensures { Reads kind bytes.now result }
{
    match kind {
        1 => {
            let table = tables::init_table();
            Ok(fields!(get table in bytes: Nvsp::Init { min: u32 1, max: u32 2 }))
        }
        2 => {
            let table = tables::init_complete_table();
            Ok(
                fields!(get table in bytes: Nvsp::InitComplete { version: u32 1, mdl_chain_length: u32 2, status: u32 3 }),
            )
        }
        100 => {
            let table = tables::ndis_version_table();
            Ok(fields!(get table in bytes: Nvsp::NdisVersion { major: u32 1, minor: u32 2 }))
        }
        101 => {
            let table = tables::receive_buffer_table();
            Ok(fields!(get table in bytes: Nvsp::ReceiveBuffer { gpadl: u32 1, id: u16 2 }))
        }
        102 => {
            let table = tables::receive_buffer_complete_table();
            Ok(
                fields!(get table in bytes: Nvsp::ReceiveBufferComplete { status: u32 1, count: u32 2, offset: u32 3, sub_alloc_size: u32 4, num_sub_allocs: u32 5, end_offset: u32 6 }),
            )
        }
        104 => {
            let table = tables::send_buffer_table();
            Ok(fields!(get table in bytes: Nvsp::SendBuffer { gpadl: u32 1, id: u16 2 }))
        }
        105 => {
            let table = tables::send_buffer_complete_table();
            Ok(
                fields!(get table in bytes: Nvsp::SendBufferComplete { status: u32 1, section_size: u32 2 }),
            )
        }
        107 => {
            let table = tables::rndis_packet_table();
            Ok(
                fields!(get table in bytes: Nvsp::RndisPacket { channel_type: u32 1, section_index: u32 2, section_size: u32 3 }),
            )
        }
        108 => {
            let table = tables::rndis_packet_complete_table();
            Ok(fields!(get table in bytes: Nvsp::RndisPacketComplete { status: u32 1 }))
        }
        _ => Err(NvspFault::Unknown { kind }),
    }
}

/// The tests in their order, and then the message.
#[tactic(auto, unfolding(crate::specs::NvspReading::Parses, crate::specs::Nvsp::nvsp_fault))]
fn parse(bytes: &[u8]) -> Result<Nvsp, NvspFault>
    ensures { Parses bytes.now result }
{
    if bytes.len() < 40 {
        return Err(NvspFault::Short {
            have: bytes.len() as u32,
            need: 40,
        });
    }
    let kind = get_at(bytes, 0, 4) as u32;
    read(kind, bytes)
}

/// The message with which the bytes begin. What stands behind its fields isn't looked at.
///
/// Errors: `Short` below 40 bytes, else `Unknown` where there is no message of this type.
///
/// Source: struct `nvsp_message` of Linux 6.12, `drivers/net/hyperv/hyperv_net.h`.
pub fn decode_nvsp(bytes: &[u8]) -> Result<Nvsp, NvspFault>
    // The bytes are the message's.
    ensures found { IfOk result (λ m. IsNvsp m bytes.now) }

    // A message of these bytes is read.
    ensures only { (m : Message) → IsNvsp m bytes.now → result ≡ Ok m }

    // Else the first fault is told.
    ensures fault { IfErr result (λ e. nvsp_fault bytes.now ≡ Some e) }

    // And bytes with a fault are no message.
    ensures faulty { IfOk result (λ m. nvsp_fault bytes.now ≡ None) }
{
    parse(bytes)
}
