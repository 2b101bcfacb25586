//! The messages that lines send to a network's adapter.
ghost use Rattle.std.specs.Prelude.{◌≡◌, ◌≤◌, ◌<◌, true, length, IfSome};
ghost use Rattle.std.specs.List.{AllByRecursion};
ghost use Rattle.script_text.specs.Forms.{are_bytes, bytes_of, is_oid, oid_of};
ghost use Rattle.script_lines.specs.Requests.{IsSent};
ghost use Rattle.script_lines.specs.Rows.{sized, query_said, set_said, frame_said};

use rndis_msg::{Rndis, Small};
use script_text::{count_bytes, oid_of, put_bytes};

/// The bytes that digits write, where they are at least `low` and at most `high`.
fn bytes_within(low: usize, high: usize, digits: &[u8]) -> Option<Small>
    requires digits { are_bytes digits.now ≡ true }
    requires most { high ≤ 1514 }
    ensures value { result ≡ sized low high (bytes_of digits.now) }
    ensures range { IfSome result (λ b. (low ≤ length b) × (length b ≤ high) × AllByRecursion (λ x. x < 256) b) }
{
    let len = count_bytes(digits);
    if low <= len && len <= high {
        let mut bytes = [0; 1514];
        put_bytes(digits, &mut bytes[..len]);
        Some(Small::of(&bytes[..len]))
    } else {
        None
    }
}

/// A query of an object, with no bytes of its own.
pub fn query_of(oid: &[u8]) -> Rndis
    requires { is_oid oid.now ≡ true }
    ensures message { result ≡ query_said oid.now }
    ensures sent { IsSent result }
{
    Rndis::Query {
        request_id: 0,
        oid: oid_of(oid),
        body: Small::empty(),
    }
}

/// A set of an object, of 1 to 64 bytes.
pub fn set_of(oid: &[u8], value: &[u8]) -> Option<Rndis>
    requires oid { is_oid oid.now ≡ true }
    requires value { are_bytes value.now ≡ true }
    ensures message { result ≡ set_said oid.now value.now }
    ensures sent { IfSome result IsSent }
{
    let body = bytes_within(1, 64, value)?;
    Some(Rndis::Set {
        request_id: 0,
        oid: oid_of(oid),
        body,
    })
}

/// A frame of 14 bytes, which an Ethernet header has, to 1,514.
pub fn frame_of(frame: &[u8]) -> Option<Rndis>
    requires { are_bytes frame.now ≡ true }
    ensures message { result ≡ frame_said frame.now }
    ensures sent { IfSome result IsSent }
{
    let body = bytes_within(14, 1_514, frame)?;
    Some(Rndis::Packet { body })
}
