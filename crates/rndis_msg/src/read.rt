//! Messages read from bytes.
ghost use Rattle.std.specs.Prelude.{◌≡◌, ◌+◌, ◌≤◌, length, IfOk, IfErr, MatchResult, None, Some, Ok};
ghost use Rattle.rndis_msg.specs.declared.rndis.Rndis.{Rndis as Message};
ghost use Rattle.rndis_msg.specs.Types.{message_type as type_of_number, number_of_type, fixed_part, buffer_place};
ghost use Rattle.rndis_msg.specs.Grammar.{BeginsWith, front_of, number_at};
ghost use Rattle.rndis_msg.specs.Faults.{first_fault, no_header, size_fault, buffer_fault};
ghost use Rattle.rndis_msg.specs.Reading.{Reads, Parses, buffer_in, message_in};

use crate::message_type::MessageType;
use crate::{FieldName, Rndis, RndisFault, Small, tables};
use wire_table::{fields, get_at};

/// The number of 4 bytes at a place.
fn number(bytes: &[u8], at: usize) -> u32
    requires { at + 4 ≤ length bytes.now }
    ensures { result ≡ number_at at bytes.now }
{
    get_at(bytes, at, 4) as u32
}

/// The type of a message.
///
/// 1. Bytes without a type and a length are short.
/// 2. The type is known.
#[tactic(auto, unfolding(crate::specs::Faults::first_fault))]
fn message_type(bytes: &[u8]) -> Result<MessageType, RndisFault>
    ensures { MatchResult result
        (λ t. (no_header bytes.now ≡ None) × (type_of_number (number_at 0 bytes.now) ≡ Some t)
        × (number_at 0 bytes.now ≡ number_of_type t) × (8 ≤ length bytes.now))
        (λ e. first_fault bytes.now ≡ Some e) }
{
    if bytes.len() < 8 {
        return Err(RndisFault::Short {
            have: bytes.len() as u32,
            need: 8,
        });
    }
    let kind = number(bytes, 0);
    match MessageType::of(kind) {
        Some(found) => Ok(found),
        None => Err(RndisFault::Unknown { kind }),
    }
}

/// The bytes of the message alone, by its length.
///
/// 3. The length isn't below the fixed part.
/// 4. There are as many bytes.
/// 5. A message without a buffer ends with its fixed part.
fn whole(bytes: &[u8], kind: MessageType) -> Result<&[u8], RndisFault>
    requires { 8 ≤ length bytes.now }
    ensures { MatchResult result
        (λ m. (size_fault kind bytes.now ≡ None) × (m.now ≡ front_of bytes.now)
        × (fixed_part kind ≤ length m.now))
        (λ e. size_fault kind bytes.now ≡ Some e) }
{
    let length = number(bytes, 4);
    let fixed = kind.fixed_part();
    if length < fixed {
        return Err(RndisFault::Short {
            have: length,
            need: fixed,
        });
    }
    if bytes.len() < length as usize {
        return Err(RndisFault::Short {
            have: bytes.len() as u32,
            need: length,
        });
    }
    if kind.buffer_place().is_none() && length > fixed {
        return Err(RndisFault::Long { have: length });
    }
    Ok(&bytes[..length as usize])
}

/// The bytes of a message's buffer. The sums are made in 64 bits, so none can wrap, whatever the message
/// says.
///
/// 6. A buffer that isn't empty begins behind the fixed part.
/// 7. It ends with the message or before, and holds a frame at most.
fn buffer(message: &[u8], kind: MessageType) -> Result<&[u8], RndisFault>
    requires { fixed_part kind ≤ length message.now }
    ensures { MatchResult result
        (λ s. (buffer_fault kind message.now ≡ None)
        × (s.now ≡ buffer_in (buffer_place kind) message.now) × (length s.now ≤ 1514))
        (λ e. buffer_fault kind message.now ≡ Some e) }
{
    let Some(place) = kind.buffer_place() else {
        return Ok(&message[..0]);
    };
    let offset = u64::from(number(message, place.offset));
    let length = u64::from(number(message, place.length));
    let begin = offset + 8;
    let end = begin + length;
    if length > 0 && begin < u64::from(kind.fixed_part()) {
        return Err(RndisFault::Field {
            name: FieldName::Offset,
            value: offset,
        });
    }
    if end > message.len() as u64 || length > 1514 {
        return Err(RndisFault::Field {
            name: FieldName::Length,
            value: length,
        });
    }
    Ok(&message[begin as usize..end as usize])
}

/// The message of a type with its fields and its buffer.
fn read(kind: MessageType, message: &[u8], body: &[u8]) -> Rndis
    requires fixed { fixed_part kind ≤ length message.now }
    requires body { body.now ≡ buffer_in (buffer_place kind) message.now }
    requires few { length body.now ≤ 1514 }
    ensures { Reads kind result message.now }
{
    match kind {
        MessageType::PacketMsg => Rndis::Packet {
            body: Small::of(body),
        },
        MessageType::InitializeMsg => {
            let table = tables::initialize_table();
            fields!(get table in message: Rndis::Initialize {
                request_id: u32 2,
                major: u32 3,
                minor: u32 4,
                max_transfer: u32 5,
            })
        }
        MessageType::InitializeCmplt => {
            let table = tables::initialize_complete_table();
            fields!(get table in message: Rndis::InitializeComplete {
                request_id: u32 2,
                status: u32 3,
                major: u32 4,
                minor: u32 5,
                device_flags: u32 6,
                medium: u32 7,
                max_packets: u32 8,
                max_transfer: u32 9,
                alignment: u32 10,
            })
        }
        MessageType::HaltMsg => {
            let table = tables::plain_table();
            fields!(get table in message: Rndis::Halt { request_id: u32 2 })
        }
        MessageType::QueryMsg => {
            let table = tables::query_table();
            fields!(get table in message: Rndis::Query {
                request_id: u32 2,
                oid: u32 3,
                body: is (Small::of(body)),
            })
        }
        MessageType::QueryCmplt => {
            let table = tables::query_complete_table();
            fields!(get table in message: Rndis::QueryComplete {
                request_id: u32 2,
                status: u32 3,
                body: is (Small::of(body)),
            })
        }
        MessageType::SetMsg => {
            let table = tables::query_table();
            fields!(get table in message: Rndis::Set {
                request_id: u32 2,
                oid: u32 3,
                body: is (Small::of(body)),
            })
        }
        MessageType::SetCmplt => {
            let table = tables::status_table();
            fields!(get table in message: Rndis::SetComplete {
                request_id: u32 2,
                status: u32 3,
            })
        }
        MessageType::ResetMsg => Rndis::Reset,
        MessageType::ResetCmplt => {
            let table = tables::status_table();
            fields!(get table in message: Rndis::ResetComplete {
                status: u32 2,
                addressing_reset: u32 3,
            })
        }
        MessageType::KeepaliveMsg => {
            let table = tables::plain_table();
            fields!(get table in message: Rndis::Keepalive { request_id: u32 2 })
        }
        MessageType::KeepaliveCmplt => {
            let table = tables::status_table();
            fields!(get table in message: Rndis::KeepaliveComplete {
                request_id: u32 2,
                status: u32 3,
            })
        }
    }
}

/// The tests in their order, and then the message.
#[tactic(auto, unfolding(crate::specs::Reading::Parses, crate::specs::Faults::first_fault))]
fn parse(bytes: &[u8]) -> Result<Rndis, RndisFault>
    ensures { Parses bytes.now result }
{
    let kind = message_type(bytes)?;
    let message = whole(bytes, kind)?;
    let body = buffer(message, kind)?;
    Ok(read(kind, message, body))
}

/// The message with which the bytes begin. It has as many bytes as its length says; what follows is padding
/// and isn't looked at.
///
/// Errors, the first that applies: `Short` below 8 bytes; `Unknown`; `Short` where the length is below the
/// fixed part, or above the bytes; `Long` where there is no buffer and the length is above the fixed part;
/// `Field` with the offset where a buffer that isn't empty begins in the fixed part; `Field` with the length
/// where the buffer ends past the message or is longer than 1,514 bytes.
///
/// Source: the Remote NDIS specification, section 2.2. Linux 6.12 looks at a packet's offset and length in
/// `rndis_filter_receive_data`, `drivers/net/hyperv/rndis_filter.c`.
pub fn decode(bytes: &[u8]) -> Result<Rndis, RndisFault>
    // The bytes begin with those of the message.
    ensures found { IfOk result (λ m. BeginsWith m bytes.now) }

    // A message with which the bytes begin is read.
    ensures only { (m : Message) → BeginsWith m bytes.now → result ≡ Ok m }

    // Else the first fault is told.
    ensures fault { IfErr result (λ e. first_fault bytes.now ≡ Some e) }

    // And bytes with a fault are no message.
    ensures faulty { IfOk result (λ m. first_fault bytes.now ≡ None) }

    // So the bytes tell the result.
    ensures value { result ≡ message_in bytes.now }
{
    parse(bytes)
}
