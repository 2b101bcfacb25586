//! Writes packets whose payload follows the descriptor.

ghost use Rattle.std.specs.Prelude.{◌≡◌, ◌+◌, ◌*◌, ◌<◌, ◌≤◌, ◌^◌, length, take, drop};
ghost use Rattle.vm_page.specs.Words.{words_for, words_of, bytes_in, padded};
ghost use Rattle.pkt_desc.specs.Packets.{IsPacket, Carries, head, plain_packet, inband_packet, completion_packet, payload_of};

use crate::kind::{COMPLETION, INBAND};
use vm_page::word_of;

/// The first word of a packet.
pub(crate) fn first_word(kind: u16, offset8: u16, len8: u16, flags: u16) -> u64
    ensures { result ≡ head kind offset8 len8 flags }
{
    u64::from(kind)
        + (u64::from(offset8) << 16)
        + (u64::from(len8) << 32)
        + (u64::from(flags) << 48)
}

/// The payload's words, the last one padded with zeros.
pub(crate) fn put_payload(out: &mut [u64], payload: &[u8])
    requires { words_for (length payload.now) ≤ length out.old }
    ensures words { take (words_for (length payload.now)) out.new ≡ words_of payload.now }
    ensures rest { drop (words_for (length payload.now)) out.new ≡ drop (words_for (length payload.now)) out.old }
{
    for i in 0..payload.len().div_ceil(8) {
        out[i] = word_of(payload, i);
    }
}

// Writes a packet whose payload follows the descriptor, at the front of `out`.
fn build(out: &mut [u64], kind: u16, tid: u64, flags: u16, payload: &[u8]) -> usize
    requires room { 2 + words_for (length payload.now) ≤ length out.old }
    requires size { 2 + words_for (length payload.now) ≤ 384 }
    ensures words { result ≡ 2 + words_for (length payload.now) }
    ensures packet { take result out.new ≡ plain_packet kind tid flags payload.now }
    ensures rest { drop result out.new ≡ drop result out.old }
    ensures carries { Carries (take result out.new) kind tid flags payload.now }
{
    let words = 2 + payload.len().div_ceil(8);
    out[0] = first_word(kind, 2, words as u16, flags);
    out[1] = tid;
    put_payload(&mut out[2..], payload);
    words
}

/// Writes an in-band packet at the front of `out`, its payload padded with zeros to whole words, and answers its words
/// (Linux 6.12, `drivers/hv/channel.c`, vmbus_sendpacket). The rest of `out` stays.
pub fn build_inband(out: &mut [u64], tid: u64, flags: u16, payload: &[u8]) -> usize
    requires room { 2 + words_for (length payload.now) ≤ length out.old }
    requires size { 2 + words_for (length payload.now) ≤ 384 }
    ensures words { result ≡ 2 + words_for (length payload.now) }
    ensures packet { take result out.new ≡ inband_packet tid flags payload.now }
    ensures rest { drop result out.new ≡ drop result out.old }
    ensures carries { Carries (take result out.new) 6 tid flags payload.now }
{
    build(out, INBAND, tid, flags, payload)
}

/// Writes a completion at the front of `out`, with flags 0 and its payload padded with zeros to whole words, and answers its
/// words. The rest of `out` stays.
pub fn build_comp(out: &mut [u64], tid: u64, payload: &[u8]) -> usize
    requires room { 2 + words_for (length payload.now) ≤ length out.old }
    requires size { 2 + words_for (length payload.now) ≤ 384 }
    ensures words { result ≡ 2 + words_for (length payload.now) }
    ensures packet { take result out.new ≡ completion_packet tid payload.now }
    ensures rest { drop result out.new ≡ drop result out.old }
    ensures carries { Carries (take result out.new) 11 tid 0 payload.now }
{
    build(out, COMPLETION, tid, 0, payload)
}
