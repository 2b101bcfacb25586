//! The bytes of a packet.
ghost use Rattle.std.specs.Prelude.{◌≡◌, ◌==◌, ◌≤◌, ◌+◌, length, take};
ghost use Rattle.ring_machine.specs.States.{IsPacket};
ghost use Rattle.vm_page.specs.Words.{words_for, words_of};
ghost use Rattle.pkt_desc.specs.Packets.{kind_of, payload_of};
ghost use Rattle.device_packets.specs.Packets.{is_of, is_inband as inband, is_completion as completion, content_of};

use vm_page::{bytes_of, word_of};

/// The type of in-band data.
pub const INBAND: u64 = 6;

/// The type of data that names parts of a buffer.
pub const TRANSFER: u64 = 7;

/// The type of data that names pages.
pub const GPA_DIRECT: u64 = 9;

/// The type of a completion.
pub const COMPLETION: u64 = 11;

/// The most bytes of a payload: a packet has at most 384 words, two of them before its payload.
pub const MOST_BYTES: usize = 3_056;

/// Whether a packet is of this type and has at most 384 words.
pub fn is_of_type(packet: &[u64], kind: u64) -> bool
    requires { IsPacket packet.now }
    ensures value { result ≡ is_of kind packet.now }
{
    packet[0] % 0x1_0000 == kind && packet.len() <= 384
}

/// Whether a packet is of a type.
pub fn is_type(packet: &[u64], kind: u64) -> bool
    requires { IsPacket packet.now }
    ensures { result ≡ (kind_of packet.now == kind) }
{
    packet[0] % 0x1_0000 == kind
}

/// Whether a packet is in-band data of at most 384 words.
#[tactic(auto, unfolding(crate::specs::Packets::is_inband))]
pub fn is_inband(packet: &[u64]) -> bool
    requires { IsPacket packet.now }
    ensures value { result ≡ inband packet.now }
{
    is_of_type(packet, INBAND)
}

/// Whether a packet is a completion of at most 384 words.
#[tactic(auto, unfolding(crate::specs::Packets::is_completion))]
pub fn is_completion(packet: &[u64]) -> bool
    requires { IsPacket packet.now }
    ensures value { result ≡ completion packet.now }
{
    is_of_type(packet, COMPLETION)
}

/// The words of a packet's payload.
pub fn payload(packet: &[u64]) -> &[u64]
    requires { IsPacket packet.now }
    ensures value { result.now ≡ payload_of packet.now }
    ensures within { length result.now + 2 ≤ length packet.now }
{
    let offset = packet[0] / 0x1_0000 % 0x1_0000;
    let (_, payload) = packet.split_at(offset as usize);
    payload
}

/// The bytes of a packet's payload, put at the front of `bytes`: how many they are.
#[tactic(auto, unfolding(crate::specs::Packets::content_of))]
pub fn content(packet: &[u64], bytes: &mut [u8]) -> usize
    requires packet { IsPacket packet.now }
    requires short { length packet.now ≤ 384 }
    requires room { length bytes.old ≡ 3056 }
    ensures len { result ≤ 3056 }
    ensures bytes { take result bytes.new ≡ content_of packet.now }
{
    let payload = payload(packet);
    let len = 8 * payload.len();
    bytes_of(payload, &mut bytes[..len]);
    len
}

/// Puts bytes into the first words of a page, the last one padded with zeros: how many words they are.
pub fn put_words(bytes: &[u8], page: &mut [u64]) -> usize
    requires few { length bytes.now ≤ 4096 }
    requires page { length page.old ≡ 512 }
    ensures len { result ≡ words_for (length bytes.now) }
    ensures words { take result page.new ≡ words_of bytes.now }
    ensures page { length page.new ≡ 512 }
{
    let words = bytes.len().div_ceil(8);
    for i in 0..words {
        page[i] = word_of(bytes, i);
    }
    words
}
