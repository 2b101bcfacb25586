//! Packets of a key-value channel. The host asks with in-band packets, and the guest answers each with one.
//!
//! Source: Linux 6.12, `drivers/hv/hv_kvp.c`, hv_kvp_onchannelcallback.
ghost use Rattle.std.specs.Prelude.{◌≡◌, ◌≤◌, length, take, true, None};
ghost use Rattle.ring_machine.specs.States.{IsPacket};
ghost use Rattle.pkt_desc.specs.Packets.{inband_packet};
ghost use Rattle.kvp_ic.specs.Faults.{fault_of};
ghost use Rattle.util_ic.specs.Packets.{negotiate_packet};
ghost use Rattle.device_packets.specs.Packets.{is_inband as inband, content_of};
ghost use Rattle.kvp_format.specs.Pairs.{is_pair_message, pair_asked, pair_read, unasked_bytes, pair_fixed, pair_answer, pair_result, pair_packet};

use contact::DeviceKind;
use device_packets::{MOST_BYTES, content, is_inband};
use kvp_ic::{Kvp, KvpReply, answer, decode, encode, read_reply};
use pkt_desc::build_inband;
use util_ic::{negotiate, serve};
use wire_table::get_at;

/// The type of a key-value message.
const KVP: u64 = 2;

/// The status of a message that is refused (ERROR_INVALID_PARAMETER).
const REFUSED: u32 = 0x8007_0057;

/// Writes the packet of the start-up under an id: its words.
pub(crate) fn write_negotiate(id: u64, out: &mut [u64]) -> usize
    requires { length out.old ≡ 384 }
    ensures packet { take result out.new ≡ negotiate_packet id }
    ensures is_packet { IsPacket (take result out.new) }
    ensures most { result ≤ 384 }
{
    let mut bytes = [0; 2_112];
    let len = negotiate(DeviceKind::Kvp, &mut bytes);
    build_inband(out, id, 0, &bytes[..len])
}

/// Writes the packet that asks the service under an id: its words.
pub(crate) fn write_pair_ask(request: &Kvp, id: u64, out: &mut [u64]) -> usize
    requires { length out.old ≡ 384 }
    ensures packet { take result out.new ≡ pair_packet id request.now }
    ensures is_packet { IsPacket (take result out.new) }
    ensures most { result ≤ 384 }
{
    let mut bytes = [0; 2_608];
    let len = encode(request, &mut bytes);
    build_inband(out, id, 0, &bytes[..len])
}

/// Whether bytes are a key-value message, with its headers whole.
fn is_message(bytes: &[u8]) -> bool
    ensures { result ≡ is_pair_message bytes.now }
{
    28 <= bytes.len() && get_at(bytes, 12, 2) == KVP
}

/// What one asks, where it isn't refused.
fn asked_in(bytes: &[u8]) -> Option<Kvp>
    ensures { result ≡ pair_asked bytes.now }
{
    if !is_message(bytes) {
        return None;
    }
    match decode(bytes) {
        Ok(request) => Some(request),
        Err(_) => None,
    }
}

/// What a packet asks of the service, where it is in-band.
#[tactic(auto, unfolding(kvp_format::specs::Pairs::pair_read, device_packets::specs::Packets::is_inband))]
pub(crate) fn asked(packet: &[u64]) -> Option<Kvp>
    requires { IsPacket packet.now }
    ensures value { result ≡ pair_read packet.now }
{
    if !is_inband(packet) {
        return None;
    }
    let mut bytes = [0; MOST_BYTES];
    let len = content(packet, &mut bytes);
    asked_in(&bytes[..len])
}

/// Writes the answer to bytes that ask nothing of the service under an id, its words: a key-value message is refused, and the table of the utility services answers any other.
fn write_unasked(id: u64, request: &[u8], out: &mut [u64]) -> usize
    requires few { length request.now ≤ 3056 }
    requires out { length out.old ≡ 384 }
    ensures packet { take result out.new ≡ inband_packet id 0 (unasked_bytes request.now) }
    ensures is_packet { IsPacket (take result out.new) }
    ensures most { result ≤ 384 }
{
    let mut reply = [0; MOST_BYTES];
    let count = if is_message(request) {
        answer(request, &KvpReply::of_status(REFUSED), &mut reply)
    } else {
        serve(request, DeviceKind::Kvp, &mut reply)
    };
    build_inband(out, id, 0, &reply[..count])
}

/// Writes the answer to a packet that asks nothing of the service: its words.
#[tactic(auto, unfolding(kvp_format::specs::Pairs::pair_fixed, device_packets::specs::Packets::is_inband))]
pub(crate) fn write_pair_fixed(packet: &[u64], out: &mut [u64]) -> usize
    requires packet { IsPacket packet.now }
    requires inband { inband packet.now ≡ true }
    requires out { length out.old ≡ 384 }
    ensures packet { take result out.new ≡ pair_fixed packet.now }
    ensures is_packet { IsPacket (take result out.new) }
    ensures most { result ≤ 384 }
{
    let mut bytes = [0; MOST_BYTES];
    let len = content(packet, &mut bytes);
    write_unasked(packet[1], &bytes[..len], out)
}

/// Writes the answer to a request of the service, with the service's reply: its words.
#[tactic(auto, unfolding(kvp_format::specs::Pairs::pair_answer, device_packets::specs::Packets::is_inband))]
pub(crate) fn write_pair_answer(packet: &[u64], reply: &KvpReply, out: &mut [u64]) -> usize
    requires packet { IsPacket packet.now }
    requires inband { inband packet.now ≡ true }
    requires long { 28 ≤ length (content_of packet.now) }
    requires asks { fault_of (content_of packet.now) ≡ None }
    requires out { length out.old ≡ 384 }
    ensures packet { take result out.new ≡ pair_answer packet.now reply.now }
    ensures is_packet { IsPacket (take result out.new) }
    ensures most { result ≤ 384 }
{
    let mut request = [0; MOST_BYTES];
    let len = content(packet, &mut request);
    let mut bytes = [0; MOST_BYTES];
    let count = answer(&request[..len], reply, &mut bytes);
    build_inband(out, packet[1], 0, &bytes[..count])
}

/// What an answer says, where it is in-band.
#[tactic(auto, unfolding(kvp_format::specs::Pairs::pair_result, device_packets::specs::Packets::is_inband))]
pub(crate) fn said(packet: &[u64]) -> Option<KvpReply>
    requires { IsPacket packet.now }
    ensures value { result ≡ pair_result packet.now }
{
    if !is_inband(packet) {
        return None;
    }
    let mut bytes = [0; MOST_BYTES];
    let len = content(packet, &mut bytes);
    read_reply(&bytes[..len])
}
