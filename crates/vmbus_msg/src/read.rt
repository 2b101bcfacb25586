//! Messages read from bytes.

ghost use Rattle.std.specs.Prelude.{◌≡◌, ◌+◌, ◌-◌, ◌*◌, ◌/◌, ◌<◌, ◌≤◌, ◌++◌, min, length, take, drop, slice_range, MatchResult, IfOk, IfErr, None, Some, Ok};
ghost use Rattle.wire_table.specs.Rows.{numbers_in};
ghost use Rattle.vmbus_msg.specs.declared.msg.Msg.{Msg};
ghost use Rattle.vmbus_msg.specs.Grammar.{IsMessage};
ghost use Rattle.vmbus_msg.specs.Faults.{fault_of, fixed, body, short, header, header_fields, told, value_at};
ghost use Rattle.vmbus_msg.specs.Reading.{Reads, Parses};
ghost use Rattle.vmbus_msg.specs.Pages.{header_frames};

use crate::fault::MsgFault;
use crate::field_name::FieldName;
use crate::frames::Frames;
use crate::gpadl_body::GpadlBody;
use crate::gpadl_header::GpadlHeader;
use crate::msg::Msg;
use wire_table::{array_at, get_at};

// The number of 8 bits at a place.
fn u8_at(bytes: &[u8], at: usize) -> u8
    requires { at + 1 ≤ length bytes.now }
    ensures { result ≡ value_at bytes.now at (at + 1) }
{
    get_at(bytes, at, 1) as u8
}

// The number of 16 bits at a place, the lowest byte first.
fn u16_at(bytes: &[u8], at: usize) -> u16
    requires { at + 2 ≤ length bytes.now }
    ensures { result ≡ value_at bytes.now at (at + 2) }
{
    get_at(bytes, at, 2) as u16
}

// The number of 32 bits at a place, the lowest byte first.
fn u32_at(bytes: &[u8], at: usize) -> u32
    requires { at + 4 ≤ length bytes.now }
    ensures { result ≡ value_at bytes.now at (at + 4) }
{
    get_at(bytes, at, 4) as u32
}

// The number of 64 bits at a place, the lowest byte first.
fn u64_at(bytes: &[u8], at: usize) -> u64
    requires { at + 8 ≤ length bytes.now }
    ensures { result ≡ value_at bytes.now at (at + 8) }
{
    get_at(bytes, at, 8)
}

// A length as a fault tells it.
fn told_len(bytes: &[u8]) -> u32
    ensures { result ≡ told (length bytes.now) }
{
    bytes.len().min(u32::MAX as usize) as u32
}

// The test of the fewest bytes.
fn has_at_least(bytes: &[u8], need: u32) -> Result<(), MsgFault>
    ensures { MatchResult result (λ _. short need (length bytes.now) ≡ None) (λ e. short need (length bytes.now) ≡ Some e) }
{
    if bytes.len() < need as usize {
        return Err(MsgFault::Short {
            have: told_len(bytes),
            need,
        });
    }
    Ok(())
}

// The test of a message of one length.
fn has_len(bytes: &[u8], need: u32) -> Result<(), MsgFault>
    ensures { MatchResult result (λ _. fixed need (length bytes.now) ≡ None) (λ e. fixed need (length bytes.now) ≡ Some e) }
{
    has_at_least(bytes, need)?;
    if bytes.len() > need as usize {
        return Err(MsgFault::Long {
            have: told_len(bytes),
        });
    }
    Ok(())
}

// The test of a page list's body: 16 bytes, and 1 to 28 frames of 8 bytes.
fn has_frames(bytes: &[u8]) -> Result<(), MsgFault>
    ensures { MatchResult result (λ _. body (length bytes.now) ≡ None) (λ e. body (length bytes.now) ≡ Some e) }
{
    has_at_least(bytes, 24)?;
    let len = bytes.len();
    if len > 240 {
        return Err(MsgFault::Long {
            have: told_len(bytes),
        });
    }
    if len % 8 != 0 {
        return Err(MsgFault::Short {
            have: told_len(bytes),
            need: (len / 8 * 8 + 8) as u32,
        });
    }
    Ok(())
}

// The test of a page list's range: whole pages, at least one, in one range.
fn has_range(range_buflen: u16, rangecount: u16) -> Result<(), MsgFault>
    ensures { MatchResult result (λ _. header_fields range_buflen rangecount ≡ None) (λ e. header_fields range_buflen rangecount ≡ Some e) }
{
    if range_buflen < 16 || range_buflen % 8 != 0 {
        return Err(MsgFault::Field {
            name: FieldName::RangeBuflen,
            value: u64::from(range_buflen),
        });
    }
    if rangecount != 1 {
        return Err(MsgFault::Field {
            name: FieldName::Rangecount,
            value: u64::from(rangecount),
        });
    }
    Ok(())
}

// This many frames of 8 bytes.
fn read_frames(bytes: &[u8], count: usize) -> Frames
    requires few { count ≤ 28 }
    requires whole { 8 * count ≤ length bytes.now }
    ensures { result ≡ numbers_in 8 count bytes.now }
{
    let mut frames = Frames::new();
    for i in 0..count {
        frames.push(get_at(bytes, 8 * i, 8));
    }
    frames
}

// An OFFERCHANNEL has exactly 196 bytes.
#[tactic(auto, unfolding(crate::specs::Reading::Reads))]
fn read_offer_channel(bytes: &[u8]) -> Result<Msg, MsgFault>
    ensures { Reads 1 bytes.now result }
{
    has_len(bytes, 196)?;
    Ok(Msg::OfferChannel {
        padding: u32_at(bytes, 4),
        if_type: array_at(bytes, 8),
        if_instance: array_at(bytes, 24),
        reserved1: u64_at(bytes, 40),
        reserved2: u64_at(bytes, 48),
        chn_flags: u16_at(bytes, 56),
        mmio: u16_at(bytes, 58),
        user: array_at(bytes, 60),
        sub: u16_at(bytes, 180),
        reserved3: u16_at(bytes, 182),
        relid: u32_at(bytes, 184),
        monitorid: u8_at(bytes, 188),
        monitor: u8_at(bytes, 189),
        interrupt: u16_at(bytes, 190),
        connection: u32_at(bytes, 192),
    })
}

// A RESCIND_CHANNELOFFER has exactly 12 bytes.
#[tactic(auto, unfolding(crate::specs::Reading::Reads))]
fn read_rescind_channel_offer(bytes: &[u8]) -> Result<Msg, MsgFault>
    ensures { Reads 2 bytes.now result }
{
    has_len(bytes, 12)?;
    Ok(Msg::RescindChannelOffer {
        padding: u32_at(bytes, 4),
        relid: u32_at(bytes, 8),
    })
}

// A REQUESTOFFERS has exactly 8 bytes.
#[tactic(auto, unfolding(crate::specs::Reading::Reads))]
fn read_request_offers(bytes: &[u8]) -> Result<Msg, MsgFault>
    ensures { Reads 3 bytes.now result }
{
    has_len(bytes, 8)?;
    Ok(Msg::RequestOffers {
        padding: u32_at(bytes, 4),
    })
}

// An ALLOFFERS_DELIVERED has exactly 8 bytes.
#[tactic(auto, unfolding(crate::specs::Reading::Reads))]
fn read_all_offers_delivered(bytes: &[u8]) -> Result<Msg, MsgFault>
    ensures { Reads 4 bytes.now result }
{
    has_len(bytes, 8)?;
    Ok(Msg::AllOffersDelivered {
        padding: u32_at(bytes, 4),
    })
}

// An OPENCHANNEL has exactly 148 bytes.
#[tactic(auto, unfolding(crate::specs::Reading::Reads))]
fn read_open_channel(bytes: &[u8]) -> Result<Msg, MsgFault>
    ensures { Reads 5 bytes.now result }
{
    has_len(bytes, 148)?;
    Ok(Msg::OpenChannel {
        padding: u32_at(bytes, 4),
        relid: u32_at(bytes, 8),
        openid: u32_at(bytes, 12),
        gpadl: u32_at(bytes, 16),
        target_vp: u32_at(bytes, 20),
        downstream: u32_at(bytes, 24),
        user: array_at(bytes, 28),
    })
}

// An OPENCHANNEL_RESULT has exactly 20 bytes.
#[tactic(auto, unfolding(crate::specs::Reading::Reads))]
fn read_open_channel_result(bytes: &[u8]) -> Result<Msg, MsgFault>
    ensures { Reads 6 bytes.now result }
{
    has_len(bytes, 20)?;
    Ok(Msg::OpenChannelResult {
        padding: u32_at(bytes, 4),
        relid: u32_at(bytes, 8),
        openid: u32_at(bytes, 12),
        status: u32_at(bytes, 16),
    })
}

// A CLOSECHANNEL has exactly 12 bytes.
#[tactic(auto, unfolding(crate::specs::Reading::Reads))]
fn read_close_channel(bytes: &[u8]) -> Result<Msg, MsgFault>
    ensures { Reads 7 bytes.now result }
{
    has_len(bytes, 12)?;
    Ok(Msg::CloseChannel {
        padding: u32_at(bytes, 4),
        relid: u32_at(bytes, 8),
    })
}

// A GPADL_CREATED has exactly 20 bytes.
#[tactic(auto, unfolding(crate::specs::Reading::Reads))]
fn read_gpadl_created(bytes: &[u8]) -> Result<Msg, MsgFault>
    ensures { Reads 10 bytes.now result }
{
    has_len(bytes, 20)?;
    Ok(Msg::GpadlCreated {
        padding: u32_at(bytes, 4),
        relid: u32_at(bytes, 8),
        gpadl: u32_at(bytes, 12),
        status: u32_at(bytes, 16),
    })
}

// A GPADL_TEARDOWN has exactly 16 bytes.
#[tactic(auto, unfolding(crate::specs::Reading::Reads))]
fn read_gpadl_teardown(bytes: &[u8]) -> Result<Msg, MsgFault>
    ensures { Reads 11 bytes.now result }
{
    has_len(bytes, 16)?;
    Ok(Msg::GpadlTeardown {
        padding: u32_at(bytes, 4),
        relid: u32_at(bytes, 8),
        gpadl: u32_at(bytes, 12),
    })
}

// A GPADL_TORNDOWN has exactly 12 bytes.
#[tactic(auto, unfolding(crate::specs::Reading::Reads))]
fn read_gpadl_torndown(bytes: &[u8]) -> Result<Msg, MsgFault>
    ensures { Reads 12 bytes.now result }
{
    has_len(bytes, 12)?;
    Ok(Msg::GpadlTorndown {
        padding: u32_at(bytes, 4),
        gpadl: u32_at(bytes, 8),
    })
}

// A RELID_RELEASED has exactly 12 bytes.
#[tactic(auto, unfolding(crate::specs::Reading::Reads))]
fn read_relid_released(bytes: &[u8]) -> Result<Msg, MsgFault>
    ensures { Reads 13 bytes.now result }
{
    has_len(bytes, 12)?;
    Ok(Msg::RelidReleased {
        padding: u32_at(bytes, 4),
        relid: u32_at(bytes, 8),
    })
}

// An INITIATE_CONTACT has exactly 40 bytes.
#[tactic(auto, unfolding(crate::specs::Reading::Reads))]
fn read_initiate_contact(bytes: &[u8]) -> Result<Msg, MsgFault>
    ensures { Reads 14 bytes.now result }
{
    has_len(bytes, 40)?;
    Ok(Msg::InitiateContact {
        padding: u32_at(bytes, 4),
        version: u32_at(bytes, 8),
        target_vcpu: u32_at(bytes, 12),
        page: u64_at(bytes, 16),
        monitor1: u64_at(bytes, 24),
        monitor2: u64_at(bytes, 32),
    })
}

// A VERSION_RESPONSE has exactly 16 bytes.
#[tactic(auto, unfolding(crate::specs::Reading::Reads))]
fn read_version_response(bytes: &[u8]) -> Result<Msg, MsgFault>
    ensures { Reads 15 bytes.now result }
{
    has_len(bytes, 16)?;
    Ok(Msg::VersionResponse {
        padding: u32_at(bytes, 4),
        supported: u8_at(bytes, 8),
        state: u8_at(bytes, 9),
        padding2: u16_at(bytes, 10),
        conn: u32_at(bytes, 12),
    })
}

// An UNLOAD has exactly 8 bytes.
#[tactic(auto, unfolding(crate::specs::Reading::Reads))]
fn read_unload(bytes: &[u8]) -> Result<Msg, MsgFault>
    ensures { Reads 16 bytes.now result }
{
    has_len(bytes, 8)?;
    Ok(Msg::Unload {
        padding: u32_at(bytes, 4),
    })
}

// An UNLOAD_RESPONSE has exactly 8 bytes.
#[tactic(auto, unfolding(crate::specs::Reading::Reads))]
fn read_unload_response(bytes: &[u8]) -> Result<Msg, MsgFault>
    ensures { Reads 17 bytes.now result }
{
    has_len(bytes, 8)?;
    Ok(Msg::UnloadResponse {
        padding: u32_at(bytes, 4),
    })
}

// A TL_CONNECT_REQUEST has exactly 40 bytes.
#[tactic(auto, unfolding(crate::specs::Reading::Reads))]
fn read_tl_connect_request(bytes: &[u8]) -> Result<Msg, MsgFault>
    ensures { Reads 21 bytes.now result }
{
    has_len(bytes, 40)?;
    Ok(Msg::TlConnectRequest {
        padding: u32_at(bytes, 4),
        guest_endpoint: array_at(bytes, 8),
        host_service: array_at(bytes, 24),
    })
}

// A MODIFYCHANNEL has exactly 16 bytes.
#[tactic(auto, unfolding(crate::specs::Reading::Reads))]
fn read_modify_channel(bytes: &[u8]) -> Result<Msg, MsgFault>
    ensures { Reads 22 bytes.now result }
{
    has_len(bytes, 16)?;
    Ok(Msg::ModifyChannel {
        padding: u32_at(bytes, 4),
        relid: u32_at(bytes, 8),
        target_vp: u32_at(bytes, 12),
    })
}

// A MODIFYCHANNEL_RESPONSE has exactly 16 bytes.
#[tactic(auto, unfolding(crate::specs::Reading::Reads))]
fn read_modify_channel_response(bytes: &[u8]) -> Result<Msg, MsgFault>
    ensures { Reads 24 bytes.now result }
{
    has_len(bytes, 16)?;
    Ok(Msg::ModifyChannelResponse {
        padding: u32_at(bytes, 4),
        relid: u32_at(bytes, 8),
        status: u32_at(bytes, 12),
    })
}

// How many bytes the range of a page list's header says that it has.
fn range_buflen(bytes: &[u8]) -> u16
    requires { 28 ≤ length bytes.now }
    ensures { result ≡ value_at bytes.now 16 18 }
{
    u16_at(bytes, 16)
}

// How many ranges a page list's header says that it has.
fn rangecount(bytes: &[u8]) -> u16
    requires { 28 ≤ length bytes.now }
    ensures { result ≡ value_at bytes.now 18 20 }
{
    u16_at(bytes, 18)
}

// How many frames a page list's header holds: one for each page of its range, and at most 26.
fn frames_in_header(range_buflen: u16) -> u32
    ensures value { result ≡ header_frames range_buflen }
    ensures most { result ≤ 26 }
{
    u32::from((range_buflen.max(8) - 8) / 8).min(26)
}

// The test of a page list's header: its length first, and then its range.
fn has_header(bytes: &[u8]) -> Result<(), MsgFault>
    ensures { MatchResult result (λ _. header bytes.now ≡ None) (λ e. header bytes.now ≡ Some e) }
{
    has_at_least(bytes, 28)?;
    has_len(bytes, 28 + 8 * frames_in_header(range_buflen(bytes)))?;
    has_range(range_buflen(bytes), rangecount(bytes))?;
    Ok(())
}

// A GPADL_HEADER has the length that its range gives.
#[tactic(auto, unfolding(crate::specs::Reading::Reads))]
fn read_gpadl_header(bytes: &[u8]) -> Result<Msg, MsgFault>
    ensures { Reads 8 bytes.now result }
{
    has_header(bytes)?;
    let frames = read_frames(bytes.split_at(28).1, (bytes.len() - 28) / 8);
    let header = GpadlHeader {
        padding: u32_at(bytes, 4),
        relid: u32_at(bytes, 8),
        gpadl: u32_at(bytes, 12),
        range_buflen: range_buflen(bytes),
        rangecount: rangecount(bytes),
        byte_count: u32_at(bytes, 20),
        byte_offset: u32_at(bytes, 24),
        frames,
    };
    Ok(Msg::GpadlHeader(header))
}

// A GPADL_BODY has 1 to 28 whole frames.
#[tactic(auto, unfolding(crate::specs::Reading::Reads))]
fn read_gpadl_body(bytes: &[u8]) -> Result<Msg, MsgFault>
    ensures { Reads 9 bytes.now result }
{
    has_frames(bytes)?;
    let frames = read_frames(bytes.split_at(16).1, (bytes.len() - 16) / 8);
    let body = GpadlBody {
        padding: u32_at(bytes, 4),
        msgnumber: u32_at(bytes, 8),
        gpadl: u32_at(bytes, 12),
        frames,
    };
    Ok(Msg::GpadlBody(body))
}

// The message of this type that the bytes hold.
fn read(kind: u32, bytes: &[u8]) -> Result<Msg, MsgFault>
    ensures { Reads kind bytes.now result }
{
    match kind {
        1 => read_offer_channel(bytes),
        2 => read_rescind_channel_offer(bytes),
        3 => read_request_offers(bytes),
        4 => read_all_offers_delivered(bytes),
        5 => read_open_channel(bytes),
        6 => read_open_channel_result(bytes),
        7 => read_close_channel(bytes),
        8 => read_gpadl_header(bytes),
        9 => read_gpadl_body(bytes),
        10 => read_gpadl_created(bytes),
        11 => read_gpadl_teardown(bytes),
        12 => read_gpadl_torndown(bytes),
        13 => read_relid_released(bytes),
        14 => read_initiate_contact(bytes),
        15 => read_version_response(bytes),
        16 => read_unload(bytes),
        17 => read_unload_response(bytes),
        21 => read_tl_connect_request(bytes),
        22 => read_modify_channel(bytes),
        24 => read_modify_channel_response(bytes),
        _ => Err(MsgFault::Unknown { kind }),
    }
}

// The type comes first, and then what is of that type.
#[tactic(auto, unfolding(crate::specs::Reading::Parses, crate::specs::Faults::fault_of))]
fn parse(bytes: &[u8]) -> Result<Msg, MsgFault>
    ensures { Parses bytes.now result }
{
    has_at_least(bytes, 8)?;
    let kind = u32_at(bytes, 0);
    read(kind, bytes)
}

/// The message that the bytes are, all of them.
///
/// Errors, in this order: `Short` below 8 bytes; `Unknown`; `Short` or `Long` where the length isn't
/// the message's; `Field` where the header of a page list doesn't name one range of whole pages.
pub fn decode(bytes: &[u8]) -> Result<Msg, MsgFault>
    // What is read has these bytes.
    ensures found { IfOk result (λ m. IsMessage m bytes.now) }

    // The message of these bytes is read.
    ensures only { (m : Msg) → IsMessage m bytes.now → result ≡ Ok m }

    // Which fault it is.
    ensures fault { IfErr result (λ e. fault_of bytes.now ≡ Some e) }

    // What is read stands in the bytes, field by field.
    ensures reads { Parses bytes.now result }
{
    parse(bytes)
}
