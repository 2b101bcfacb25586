//! What a message asks.

ghost use Rattle.std.specs.Prelude.{◌≡◌, ◌+◌, ◌≤◌, length, List, MatchResult, IfOk, Ok, None, Some};
ghost use Rattle.kvp_ic.specs.declared.message.Kvp.{Kvp as Message};
ghost use Rattle.kvp_ic.specs.Texts.{text_at};
ghost use Rattle.kvp_ic.specs.Messages.{pool_in, index_in, key_place as key_stands, value_place as value_stands, Asks};
ghost use Rattle.kvp_ic.specs.Faults.{frame_fault as wrong_frame, key_fault, pair_fault, fault_of, message_in};

use crate::places::{key_place, value_place};
use crate::text::{read_text, size_fault};
use crate::{Key, Kvp, KvpFault, Val};
use wire_table::get_at;

/// What is wrong with a message's length, its operation or its pool.
fn frame_fault(bytes: &[u8]) -> Option<KvpFault>
    ensures { result ≡ wrong_frame bytes.now }
{
    let have = bytes.len();
    if have < 2604 {
        return Some(KvpFault::Short {
            have: have as u32,
            need: 2604,
        });
    }
    let operation = bytes[28];
    if operation == 3 && have < 2608 {
        return Some(KvpFault::Short {
            have: have as u32,
            need: 2608,
        });
    }
    if operation > 3 {
        return Some(KvpFault::Operation { value: operation });
    }
    let pool = bytes[29];
    if pool > 4 {
        return Some(KvpFault::Pool { value: pool });
    }
    None
}

/// The key of a message that has no other text.
fn read_key(bytes: &[u8]) -> Result<Key, KvpFault>
    requires { 2604 ≤ length bytes.now }
    ensures { MatchResult result
        (λ k. (key_fault (key_stands 0) bytes.now ≡ None) × (k ≡ text_at (key_stands 0) bytes.now))
        (λ e. key_fault (key_stands 0) bytes.now ≡ Some e) }
{
    let place = key_place(0);
    if let Some(fault) = size_fault::<1, 255>(bytes, place) {
        return Err(fault);
    }
    read_text(bytes, place, 0)
}

/// The key and the value of a message: both sizes are looked at before both texts.
fn read_pair(bytes: &[u8]) -> Result<(Key, Val), KvpFault>
    requires { 2604 ≤ length bytes.now }
    ensures { MatchResult result
        (λ p. (pair_fault (key_stands 1) (value_stands 1) bytes.now ≡ None)
        × (p.0 ≡ text_at (key_stands 1) bytes.now)
        × (p.1 ≡ text_at (value_stands 1) bytes.now))
        (λ e. pair_fault (key_stands 1) (value_stands 1) bytes.now ≡ Some e) }
{
    let key = key_place(1);
    let value = value_place(1);
    if let Some(fault) = size_fault::<1, 255>(bytes, key) {
        return Err(fault);
    }
    if let Some(fault) = size_fault::<0, 1023>(bytes, value) {
        return Err(fault);
    }
    match read_text(bytes, key, 0) {
        Ok(key) => match read_text(bytes, value, 512) {
            Ok(value) => Ok((key, value)),
            Err(fault) => Err(fault),
        },
        Err(fault) => Err(fault),
    }
}

/// What a message asks, or the first fault.
fn parse(bytes: &[u8]) -> Result<Kvp, KvpFault>
    ensures { MatchResult result
        (λ m. (fault_of bytes.now ≡ None) × (m ≡ message_in bytes.now))
        (λ e. fault_of bytes.now ≡ Some e) }
{
    if let Some(fault) = frame_fault(bytes) {
        return Err(fault);
    }
    let pool = bytes[29];
    // Each arm returns by itself, so that no text is moved through the value of the `match`.
    match bytes[28] {
        0 => {
            return Ok(Kvp::Get {
                pool,
                key: read_key(bytes)?,
            });
        }
        1 => {
            let (key, value) = read_pair(bytes)?;
            return Ok(Kvp::Set { pool, key, value });
        }
        2 => {
            return Ok(Kvp::Delete {
                pool,
                key: read_key(bytes)?,
            });
        }
        _ => {
            return Ok(Kvp::Enum {
                pool,
                index: get_at(bytes, 32, 4) as u32,
            });
        }
    }
}

/// What a message asks, or the first reason why it is refused.
///
/// Bytes may follow: a packet has whole words. Get and delete look at the key alone, a set at both texts, and a request about a place
/// at neither. The value's type isn't looked at.
///
/// Errors, the first that applies: `Short` below 2,604 bytes, and below 2,608 where a place is asked for; `Operation` above 3; `Pool`
/// above 4; `Size` where a text's size is odd, below that of its least units with a last one, or past its field, the key first;
/// `Text` where a unit before the last is 0, or the last isn't, the key first.
///
/// Source: Linux 6.12, `include/uapi/linux/hyperv.h`, struct hv_kvp_msg, and `drivers/hv/hv_kvp.c`, kvp_send_key.
pub fn decode(bytes: &[u8]) -> Result<Kvp, KvpFault>
    // The bytes begin with a message that asks this.
    ensures found { IfOk result (λ m. Asks m bytes.now) }

    // What the bytes ask is read.
    ensures only { (m : Message) → Asks m bytes.now → result ≡ Ok m }

    // So the bytes tell the result: what they ask, or the first fault.
    ensures value { MatchResult result
        (λ m. (fault_of bytes.now ≡ None) × (m ≡ message_in bytes.now))
        (λ e. fault_of bytes.now ≡ Some e) }
{
    parse(bytes)
}
