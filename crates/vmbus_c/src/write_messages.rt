//! Control messages, written.
ghost use Rattle.std.specs.Prelude.{◌≡◌, ◌≢◌, ◌≤◌, ◌<◌, ◌%◌, ◌↔◌, true, Some, None, IfSome, length, take, drop, slice_range};
ghost use Rattle.vmbus_msg.specs.Grammar.{InForm, IsMessage};
ghost use Rattle.vmbus_msg.specs.declared.msg.Msg.{Msg as Message};
ghost use Rattle.vmbus_c.specs.Messages.{fields_of};
ghost use Rattle.vmbus_c.specs.MessageWriting.{Stands, message_of};

use crate::messages::{VmbusMessage, fields};
use vmbus_fault::put_front;
use vmbus_msg::{Msg, encode};
use wire_table::array_at;

// The low 8 bits of a number.
fn low_8(number: u32) -> u8
    ensures { result ≡ number % 256 }
{
    (number % 256) as u8
}

// The low 16 bits of a number.
fn low_16(number: u32) -> u16
    ensures { result ≡ number % 65536 }
{
    (number % 65536) as u16
}

// The offer of these numbers, with the ids and the user data that stand in the bytes.
fn offer(v: &VmbusMessage, held: &[u8; 240]) -> Msg
    requires { v.now.kind ≡ 1 }
    ensures { Some result ≡ message_of v.now held.now }
{
    Msg::OfferChannel {
        padding: v.padding,
        if_type: array_at(held, 8),
        if_instance: array_at(held, 24),
        reserved1: v.reserved1,
        reserved2: v.reserved2,
        chn_flags: low_16(v.chn_flags),
        mmio: low_16(v.mmio),
        user: array_at(held, 60),
        sub: low_16(v.sub),
        reserved3: low_16(v.reserved3),
        relid: v.relid,
        monitorid: low_8(v.monitorid),
        monitor: low_8(v.monitor),
        interrupt: low_16(v.interrupt),
        connection: v.connection,
    }
}

// The message of the type that the numbers give, of those numbers that the type has, with the ids and the user data that stand in the bytes. A page list's messages are
// not among them.
fn shaped(v: &VmbusMessage, held: &[u8; 240]) -> Option<Msg>
    ensures { result ≡ message_of v.now held.now }
{
    let padding = v.padding;
    let relid = v.relid;
    match v.kind {
        1 => Some(offer(v, held)),
        2 => Some(Msg::RescindChannelOffer { padding, relid }),
        3 => Some(Msg::RequestOffers { padding }),
        4 => Some(Msg::AllOffersDelivered { padding }),
        5 => Some(Msg::OpenChannel {
            padding,
            relid,
            openid: v.openid,
            gpadl: v.gpadl,
            target_vp: v.target_vp,
            downstream: v.downstream,
            user: array_at(held, 28),
        }),
        6 => Some(Msg::OpenChannelResult {
            padding,
            relid,
            openid: v.openid,
            status: v.status,
        }),
        7 => Some(Msg::CloseChannel { padding, relid }),
        10 => Some(Msg::GpadlCreated {
            padding,
            relid,
            gpadl: v.gpadl,
            status: v.status,
        }),
        11 => Some(Msg::GpadlTeardown {
            padding,
            relid,
            gpadl: v.gpadl,
        }),
        12 => Some(Msg::GpadlTorndown {
            padding,
            gpadl: v.gpadl,
        }),
        13 => Some(Msg::RelidReleased { padding, relid }),
        14 => Some(Msg::InitiateContact {
            padding,
            version: v.version,
            target_vcpu: v.target_vcpu,
            page: v.page,
            monitor1: v.monitor1,
            monitor2: v.monitor2,
        }),
        15 => Some(Msg::VersionResponse {
            padding,
            supported: low_8(v.supported),
            state: low_8(v.state),
            padding2: low_16(v.padding2),
            conn: v.conn,
        }),
        16 => Some(Msg::Unload { padding }),
        17 => Some(Msg::UnloadResponse { padding }),
        21 => Some(Msg::TlConnectRequest {
            padding,
            guest_endpoint: array_at(held, 8),
            host_service: array_at(held, 24),
        }),
        22 => Some(Msg::ModifyChannel {
            padding,
            relid,
            target_vp: v.target_vp,
        }),
        24 => Some(Msg::ModifyChannelResponse {
            padding,
            relid,
            status: v.status,
        }),
        _ => None,
    }
}

// Whether two messages have the same numbers.
fn are_same(a: &VmbusMessage, b: &VmbusMessage) -> bool
    ensures same { result ≡ true → a.now ≡ b.now }
    ensures only { a.now ≡ b.now → result ≡ true }
{
    *a == *b
}

// The message whose numbers these are, with the ids and the user data that stand in the bytes, if there is one.
fn message(v: &VmbusMessage, held: &[u8; 240]) -> Option<Msg>
    ensures whose { IfSome result (λ m. fields_of m ≡ v.now) }
    ensures stands { IfSome result (λ m. Stands m held.now) }
    ensures only { (m : Message) → InForm m → fields_of m ≡ v.now → Stands m held.now → result ≡ Some m }
{
    let m = shaped(v, held)?;
    if are_same(&fields(&m), v) {
        Some(m)
    } else {
        None
    }
}

/// Writes the control message of these numbers at the front of `out`, round the ids of 16 bytes and the user data, which stand in `out` already, at the places that the
/// header names, and answers 0; `len` is then how many bytes it has. It answers 2 where `out` has less than the 240 bytes that a message may have, or else 1 where no
/// message has these numbers: those that its type doesn't have are 0, and the others fit their fields. A page list's header and body, types 8 and 9, are written by
/// `vmbus_gpadl_write`, and answered 1 here. Where the answer isn't 0, nothing is written.
#[unsafe(no_mangle)]
pub extern "C" fn vmbus_message_write(
    message: &VmbusMessage,
    out: &mut [u8],
    len: &mut usize,
) -> u32
    ensures written { result ≡ 0 → (m : Message) × (IsMessage m (take len.new out.new) × (fields_of m ≡ message.now) × Stands m (slice_range out.old 0 240)) }
    ensures every { 240 ≤ length out.old → (m : Message) → InForm m → fields_of m ≡ message.now → Stands m (slice_range out.old 0 240) → (result ≡ 0) × IsMessage m (take len.new out.new) }
    ensures room { (result ≡ 2) ↔ (length out.old < 240) }
    ensures three { result ≤ 2 }
    ensures most { result ≡ 0 → len.new ≤ 240 }
    ensures rest { result ≡ 0 → drop len.new out.new ≡ drop len.new out.old }
    ensures kept { result ≢ 0 → (out.new ≡ out.old) × (len.new ≡ len.old) }
{
    if out.len() < 240 {
        return 2;
    }
    let held = array_at(out, 0);
    let Some(m) = crate::write_messages::message(message, &held) else {
        return 1;
    };
    let mut bytes = [0; 240];
    let count = encode(&m, &mut bytes);
    put_front(out, &bytes[..count]);
    *len = count;
    0
}
