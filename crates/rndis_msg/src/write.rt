//! Messages written as bytes.
ghost use Rattle.std.specs.Prelude.{◌≡◌, ℕ, ◌+◌, ◌*◌, ◌≤◌, ◌++◌, [], List, length, take, drop};
ghost use Rattle.wire_table.specs.Little.{bytes_of};
ghost use Rattle.wire_table.specs.Rows.{spelled_after};
ghost use Rattle.rndis_msg.specs.Grammar.{IsRndis, BeginsWith, InForm, length_of, offset_of, rndis_bytes, rows_of};

use crate::Rndis;
use wire_table::{put_at, put_bytes};

/// How many bytes a message has.
fn length(m: &Rndis) -> usize
    ensures value { result ≡ length_of m.now }
    ensures most { result ≤ 1558 }
{
    match m {
        Rndis::Packet { body } => 44 + body.bytes().len(),
        Rndis::Query { body, .. } | Rndis::Set { body, .. } => 28 + body.bytes().len(),
        Rndis::QueryComplete { body, .. } => 24 + body.bytes().len(),
        Rndis::InitializeComplete { .. } => 52,
        Rndis::Initialize { .. } => 24,
        Rndis::SetComplete { .. } | Rndis::ResetComplete { .. } | Rndis::KeepaliveComplete { .. } =>
            16,
        Rndis::Halt { .. } | Rndis::Reset | Rndis::Keepalive { .. } => 12,
    }
}

/// The offset of a query's or a set's buffer: 0 where it is empty.
fn offset(at: u32, body: &[u8]) -> u32
    ensures { result ≡ offset_of at body.now }
{
    if body.is_empty() { 0 } else { at }
}

/// Writes a number of 4 bytes at a place, with nothing changed before it, and answers where it ends.
fn put_word(out: &mut [u8], at: usize, word: u32) -> usize
    requires { at + 4 ≤ length out.old }
    ensures end { result ≡ at + 4 }
    ensures front { take result out.new ≡ take at out.old ++ bytes_of 4 word }
{
    put_at(out, at, 4, u64::from(word));
    at + 4
}

/// Writes numbers of 4 bytes in order, from the front on.
fn put_words(out: &mut [u8], words: &[u32])
    requires { 4 * length words.now ≤ length out.old }
    ensures { take (4 * length words.now) out.new ≡ spelled_after [] (rows_of words.now) }
{
    let mut at = 0;
    for word in words {
        at = put_word(out, at, *word);
    }
}

/// Writes the numbers of a fixed part, and right behind it a buffer.
fn put_both(out: &mut [u8], words: &[u32], buffer: &[u8])
    requires { 4 * length words.now + length buffer.now ≤ length out.old }
    ensures { take (4 * length words.now + length buffer.now) out.new ≡ spelled_after [] (rows_of words.now) ++ buffer.now }
{
    put_words(out, words);
    put_bytes(out, 4 * words.len(), buffer);
}

/// Writes a message into as many bytes as it has. A buffer follows the fixed part, and what isn't looked
/// at is 0.
#[tactic(auto, unfolding(crate::specs::Grammar::rndis_bytes))]
fn write(m: &Rndis, out: &mut [u8])
    requires len { length out.old ≡ length_of m.now }
    requires few { length_of m.now ≤ 1558 }
    ensures bytes { take (length_of m.now) out.new ≡ rndis_bytes m.now }
    ensures form { InForm m.now }
{
    let len = out.len() as u32;
    match m {
        Rndis::Packet { body } => {
            let bytes = body.bytes();
            let count = bytes.len() as u32;
            put_both(out, &[1, len, 36, count, 0, 0, 0, 0, 0, 0, 0], bytes);
        }
        Rndis::Initialize {
            request_id,
            major,
            minor,
            max_transfer,
        } => put_words(out, &[2, len, *request_id, *major, *minor, *max_transfer]),
        Rndis::InitializeComplete {
            request_id,
            status,
            major,
            minor,
            device_flags,
            medium,
            max_packets,
            max_transfer,
            alignment,
        } => put_words(
            out,
            &[
                0x8000_0002,
                len,
                *request_id,
                *status,
                *major,
                *minor,
                *device_flags,
                *medium,
                *max_packets,
                *max_transfer,
                *alignment,
                0,
                0,
            ],
        ),
        Rndis::Halt { request_id } => put_words(out, &[3, len, *request_id]),
        Rndis::Query {
            request_id,
            oid,
            body,
        } => {
            let bytes = body.bytes();
            let count = bytes.len() as u32;
            put_both(
                out,
                &[4, len, *request_id, *oid, count, offset(20, bytes), 0],
                bytes,
            );
        }
        Rndis::QueryComplete {
            request_id,
            status,
            body,
        } => {
            let bytes = body.bytes();
            let count = bytes.len() as u32;
            put_both(
                out,
                &[
                    0x8000_0004,
                    len,
                    *request_id,
                    *status,
                    count,
                    offset(16, bytes),
                ],
                bytes,
            );
        }
        Rndis::Set {
            request_id,
            oid,
            body,
        } => {
            let bytes = body.bytes();
            let count = bytes.len() as u32;
            put_both(
                out,
                &[5, len, *request_id, *oid, count, offset(20, bytes), 0],
                bytes,
            );
        }
        Rndis::SetComplete { request_id, status } => put_words(
            out,
            &[0x8000_0005, len, *request_id, *status],
        ),
        Rndis::Reset => put_words(out, &[6, len, 0]),
        Rndis::ResetComplete {
            status,
            addressing_reset,
        } => put_words(out, &[0x8000_0006, len, *status, *addressing_reset]),
        Rndis::Keepalive { request_id } => put_words(out, &[8, len, *request_id]),
        Rndis::KeepaliveComplete { request_id, status } => put_words(
            out,
            &[0x8000_0008, len, *request_id, *status],
        ),
    }
}

/// Writes a message at the front of a buffer, and answers how many bytes it has, 1,558 at most. The buffer
/// of a message follows its fixed part; an empty one has offset 0, and 36 in a packet.
///
/// Source: the Remote NDIS specification, section 2.2.
pub fn encode(m: &Rndis, out: &mut [u8]) -> usize
    requires { 1600 ≤ length out.old }
    ensures most { result ≤ 1558 }

    // The bytes are the message's, with all that isn't looked at 0.
    ensures written { take result out.new ≡ rndis_bytes m.now }
    ensures message { IsRndis m.now (take result out.new) }

    // The message is read again, whatever follows it.
    ensures padded { (padding : List ℕ) → BeginsWith m.now (take result out.new ++ padding) }

    // The bytes behind the message are as before.
    ensures rest { drop result out.new ≡ drop result out.old }
{
    let len = length(m);
    write(m, &mut out[..len]);
    len
}
