//! Remote NDIS messages, written.
ghost use Rattle.std.specs.Prelude.{true, ◌≡◌, ◌≢◌, ◌≤◌, ◌<◌, ◌++◌, ℕ, List, Some, None, IfSome, length, take, drop};
ghost use Rattle.rndis_msg.specs.Grammar.{BeginsWith, InForm, rndis_bytes};
ghost use Rattle.rndis_msg.specs.Messages.{body_of};
ghost use Rattle.rndis_msg.specs.declared.rndis.Rndis.{Rndis as RndisMessage};
ghost use Rattle.vmbus_net_c.specs.Network.{rndis_fields};
ghost use Rattle.vmbus_net_c.specs.RndisWriting.{rndis_of};

use crate::network::{VmbusRndis, rndis_fields};
use rndis_msg::{Rndis, Small, encode};
use vmbus_fault::put_front;

// The message of the type that the numbers give, of those numbers that the type has, with this buffer where the type has one.
fn shaped(v: &VmbusRndis, body: &[u8]) -> Option<Rndis>
    requires { length body.now ≤ 1514 }
    ensures { result ≡ rndis_of v.now body.now }
{
    match v.kind {
        1 => Some(Rndis::Packet {
            body: Small::of(body),
        }),
        4 => Some(Rndis::Query {
            request_id: v.request_id,
            oid: v.oid,
            body: Small::of(body),
        }),
        0x8000_0004 => Some(Rndis::QueryComplete {
            request_id: v.request_id,
            status: v.status,
            body: Small::of(body),
        }),
        5 => Some(Rndis::Set {
            request_id: v.request_id,
            oid: v.oid,
            body: Small::of(body),
        }),
        2 => Some(Rndis::Initialize {
            request_id: v.request_id,
            major: v.major,
            minor: v.minor,
            max_transfer: v.max_transfer,
        }),
        0x8000_0002 => Some(Rndis::InitializeComplete {
            request_id: v.request_id,
            status: v.status,
            major: v.major,
            minor: v.minor,
            device_flags: v.device_flags,
            medium: v.medium,
            max_packets: v.max_packets,
            max_transfer: v.max_transfer,
            alignment: v.alignment,
        }),
        3 => Some(Rndis::Halt {
            request_id: v.request_id,
        }),
        0x8000_0005 => Some(Rndis::SetComplete {
            request_id: v.request_id,
            status: v.status,
        }),
        6 => Some(Rndis::Reset),
        0x8000_0006 => Some(Rndis::ResetComplete {
            status: v.status,
            addressing_reset: v.addressing_reset,
        }),
        8 => Some(Rndis::Keepalive {
            request_id: v.request_id,
        }),
        0x8000_0008 => Some(Rndis::KeepaliveComplete {
            request_id: v.request_id,
            status: v.status,
        }),
        _ => None,
    }
}

// Whether two messages have the same numbers.
fn are_same(a: &VmbusRndis, b: &VmbusRndis) -> bool
    ensures same { result ≡ true → a.now ≡ b.now }
    ensures only { a.now ≡ b.now → result ≡ true }
{
    *a == *b
}

// The message whose numbers and whose buffer these are, if there is one.
fn message_of(v: &VmbusRndis, body: &[u8]) -> Option<Rndis>
    ensures whose { IfSome result (λ m. (rndis_fields m ≡ v.now) × (body_of m ≡ body.now)) }
    ensures form { IfSome result (λ m. InForm m) }
    ensures only { (m : RndisMessage) → InForm m → rndis_fields m ≡ v.now → body_of m ≡ body.now → result ≡ Some m }
{
    if body.len() > 1514 || body.len() != v.body_len as usize {
        return None;
    }
    let m = shaped(v, body)?;
    if are_same(&rndis_fields(&m), v) {
        Some(m)
    } else {
        None
    }
}

// Writes a message at the front of a buffer that is long enough for any, and answers how many bytes it has.
fn encoded(m: &Rndis, out: &mut [u8; 1600]) -> usize
    ensures most { result ≤ 1600 }
    ensures count { result ≡ length (rndis_bytes m.now) }
    ensures written { take result out.new ≡ rndis_bytes m.now }
    ensures message { (padding : List ℕ) → BeginsWith m.now (rndis_bytes m.now ++ padding) }
{
    encode(m, out)
}

/// Writes the Remote NDIS message of these numbers and with this buffer at the front of `out`: the buffer follows the fixed part, and what isn't looked at is 0. It answers
/// 0, or 1 where no message has these numbers and this buffer (those that its type doesn't have are 0, and a buffer has 1,514 bytes at most), or else 2 where `out` is too
/// small; then `out` stays. `len` is then how many bytes the message has; where the answer is 1 it stays.
#[unsafe(no_mangle)]
pub extern "C" fn vmbus_rndis_write(
    message: &VmbusRndis,
    body: &[u8],
    out: &mut [u8],
    len: &mut usize,
) -> u32
    ensures written { result ≡ 0 → (m : RndisMessage) × ((rndis_fields m ≡ message.now) × (body_of m ≡ body.now) × (len.new ≡ length (rndis_bytes m)) × (take len.new out.new ≡ rndis_bytes m) × ((padding : List ℕ) → BeginsWith m (rndis_bytes m ++ padding))) }
    ensures every { (m : RndisMessage) → InForm m → rndis_fields m ≡ message.now → body_of m ≡ body.now → length (rndis_bytes m) ≤ length out.old → result ≡ 0 }
    ensures none { result ≡ 1 → (len.new ≡ len.old) × ((m : RndisMessage) → InForm m → rndis_fields m ≡ message.now → body_of m ≢ body.now) }
    ensures room { result ≡ 2 → (m : RndisMessage) × (InForm m × (rndis_fields m ≡ message.now) × (body_of m ≡ body.now) × (len.new ≡ length (rndis_bytes m)) × (length out.old < length (rndis_bytes m))) }
    ensures three { result ≤ 2 }
    ensures rest { result ≡ 0 → drop len.new out.new ≡ drop len.new out.old }
    ensures kept { result ≢ 0 → out.new ≡ out.old }
{
    let Some(m) = message_of(message, body) else {
        return 1;
    };
    let mut bytes = [0; 1600];
    let count = encoded(&m, &mut bytes);
    *len = count;
    if out.len() < count {
        return 2;
    }
    put_front(out, &bytes[..count]);
    0
}
