//! The words of a packet of a socket.
ghost use Rattle.std.specs.Prelude.{◌≡◌, ◌+◌, ◌*◌, ◌≤◌, length, take, None, Some, MatchResult};
ghost use Rattle.vm_page.specs.Words.{words_for, words_of, bytes_in};
ghost use Rattle.ring_machine.specs.States.{IsPacket};
ghost use Rattle.pkt_desc.specs.Packets.{payload_of};
ghost use Rattle.hv_sock.specs.Packets.{sock_packet, is_size, size_in, content_fault, says, answer_of, left_in};

use crate::got::Got;
use crate::sock_fault::SockFault;
use vm_page::{bytes_of, word_of};

/// The bytes that a packet carries at most.
pub(crate) const MOST_DATA: usize = 2_048;

// The words before the data: two of the descriptor, and the header of the socket, a type of 1 and the number of bytes.
const BEFORE: usize = 3;

/// The words of a packet at most.
pub(crate) const MOST_WORDS: usize = BEFORE + MOST_DATA / 8;

// The type of every packet (Linux `net/vmw_vsock/hyperv_transport.c`, hvs_send_data).
const DATA: u32 = 1;

// The descriptor's first word without the length: in-band data whose payload begins at word 2.
const INBAND: u64 = 0x2_0006;

/// The words of the packet that ends a direction: it has no bytes.
pub(crate) const END: [u64; BEFORE] = [INBAND + (3 << 32), 0, 1];

// The words of bytes, the last one padded with zeros, at the front of `out`.
fn put_words(out: &mut [u64], bytes: &[u8])
    requires { words_for (length bytes.now) ≤ length out.old }
    ensures words { take (words_for (length bytes.now)) out.new ≡ words_of bytes.now }
{
    let whole = bytes.len() / 8;
    for i in 0..whole {
        let mut piece = [0; 8];
        piece.copy_from_slice(&bytes[8 * i..8 * i + 8]);
        out[i] = u64::from_le_bytes(piece);
    }
    if 8 * whole < bytes.len() {
        out[whole] = word_of(bytes, whole);
    }
}

/// Writes the packet of 1 to 2,048 bytes at the front of `out`, and answers its words.
pub(crate) fn put_packet(out: &mut [u64; MOST_WORDS], bytes: &[u8]) -> usize
    requires { length bytes.now ≤ 2048 }
    ensures words { result ≡ 3 + words_for (length bytes.now) }
    ensures packet { take result out.new ≡ sock_packet bytes.now }
{
    let words = BEFORE + bytes.len().div_ceil(8);
    out[0] = INBAND + ((words as u64) << 32);
    out[1] = 0;
    out[2] = u64::from(DATA) + ((bytes.len() as u64) << 32);
    put_words(&mut out[BEFORE..], bytes);
    words
}

// Whether so much data is allowed, and fills a payload of so many words behind the header.
fn is_size(size: u32, words: usize) -> bool
    ensures { result ≡ is_size size (8 * words) }
{
    size <= MOST_DATA as u32 && words == 1 + (size as usize).div_ceil(8)
}

// How many bytes of data a payload has, or the first reason why it is none of a socket's.
fn data_size(payload: &[u64]) -> Result<usize, SockFault>
    requires { length payload.now ≤ 65535 }
    ensures { MatchResult result (λ n. (content_fault (bytes_in payload.now) ≡ None) × (n ≡ size_in (bytes_in payload.now))) (λ f. content_fault (bytes_in payload.now) ≡ Some f) }
{
    let have = 8 * payload.len() as u32;
    if payload.is_empty() {
        return Err(SockFault::Short { have });
    }
    let header = payload[0];
    let kind = (header % 0x1_0000_0000) as u32;
    if kind != DATA {
        return Err(SockFault::Kind { value: kind });
    }
    let size = (header >> 32) as u32;
    if !is_size(size, payload.len()) {
        return Err(SockFault::Size { value: size, have });
    }
    Ok(size as usize)
}

// The words of a packet's payload.
fn payload(packet: &[u64]) -> &[u64]
    requires { IsPacket packet.now }
    ensures payload { result.now ≡ payload_of packet.now }
    ensures most { length result.now ≤ 65533 }
{
    let offset = packet[0] / 0x1_0000 % 0x1_0000;
    &packet[offset as usize..]
}

/// Reads a packet: its data go to the front of `out`, and the rest of `out` stays.
///
/// The payload is tested for a header first, then the type, and then the number of bytes: the payload has to have just the words that the header and the data
/// fill (Linux `net/vmw_vsock/hyperv_transport.c`, hvs_update_recv_data, which tests the number alone). What stands behind the data in the last word isn't
/// looked at, nor are the descriptor's type, flags and id.
pub(crate) fn read_packet(packet: &[u64], out: &mut [u8; MOST_DATA]) -> Result<Got, SockFault>
    requires { IsPacket packet.now }
    ensures answer { result ≡ answer_of (says packet.now) }
    ensures out { out.new ≡ left_in (says packet.now) out.old }
{
    let payload = payload(packet);
    let size = data_size(payload)?;
    if size == 0 {
        return Ok(Got::End);
    }
    bytes_of(&payload[1..], &mut out[..size]);
    Ok(Got::Bytes(size))
}
