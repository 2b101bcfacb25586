//! Network messages in the packets of a network's channel.
//!
//! Source: Linux 6.12, `drivers/net/hyperv/netvsc.c` and `rndis_filter.c`.
ghost use Rattle.std.specs.Prelude.{◌≡◌, ◌≤◌, ◌<◌, ◌^◌, ◌+◌, ◌%◌, length, take, true, false, Some, None, MatchOption};
ghost use Rattle.ring_machine.specs.States.{IsPacket};
ghost use Rattle.rndis_msg.specs.declared.rndis.Rndis.{Rndis as Message};
ghost use Rattle.net_dev.specs.Station.{initialize_reply};
ghost use Rattle.device_net.specs.Came.{IsCame, status_in};
ghost use Rattle.net_format.specs.Nets.{least_in, greatest_in, init_answer as answer_to, init_done, receive_done, send_done, channel_type as channel_of, brings_rndis, is_transfer as transfer, net_done, net_init, net_ndis, net_receive, net_send, initialize_of, with_id, request_id_of};

use device_packets::{MOST_BYTES, TRANSFER, content, is_completion, is_inband, is_of_type};
use net_dev::{Nvsp, decode_nvsp, encode_nvsp};
use pkt_desc::{build_comp, build_inband};
use rndis_msg::Rndis;

/// NVSP version 5.0, the highest.
const VERSION: u32 = 0x5_0000;

/// The id of the receive buffer (`NETVSC_RECEIVE_BUFFER_ID`). That of the send buffer is 0.
pub(crate) const RECEIVE_BUFFER: u16 = 0xcafe;

/// The bytes of a section of the send buffer, and of a part of the receive buffer.
const SECTION: u32 = 4_096;

/// How many parts the receive buffer has.
const PARTS: u32 = 64;

/// The channel type of a message: data for a frame, and control for any other.
pub(crate) fn channel_type(m: &Rndis) -> u32
    ensures { result ≡ channel_of m.now }
{
    match m {
        Rndis::Packet { .. } => 0,
        _ => 1,
    }
}

/// The request id of the message in a packet with this id.
pub(crate) fn request_id(id: u64) -> u32
    ensures { result ≡ request_id_of id }
{
    (id % 0x1_0000_0000) as u32
}

/// Writes a completion with a status, which goes back with the adapter's reply: its words.
#[tactic(auto, unfolding(net_format::specs::Nets::net_done))]
pub fn write_done(id: u64, status: u32, out: &mut [u64]) -> usize
    requires out { length out.old ≡ 384 }
    ensures packet { take result out.new ≡ net_done id status }
    ensures is_packet { IsPacket (take result out.new) }
    ensures most { result ≤ 384 }
{
    let mut bytes = [0; 40];
    encode_nvsp(&Nvsp::RndisPacketComplete { status }, &mut bytes);
    build_comp(out, id, &bytes)
}

/// Writes an init: its words.
#[tactic(auto, unfolding(net_format::specs::Nets::net_init))]
pub(crate) fn write_init(id: u64, out: &mut [u64]) -> usize
    requires out { length out.old ≡ 384 }
    ensures packet { take result out.new ≡ net_init id }
    ensures is_packet { IsPacket (take result out.new) }
    ensures most { result ≤ 384 }
{
    let mut bytes = [0; 40];
    encode_nvsp(
        &Nvsp::Init {
            min: VERSION,
            max: VERSION,
        },
        &mut bytes,
    );
    build_inband(out, id, 1, &bytes)
}

/// Writes the NDIS version, which goes with id 0 and asks for no completion: its words.
#[tactic(auto, unfolding(net_format::specs::Nets::net_ndis))]
pub(crate) fn write_version(out: &mut [u64]) -> usize
    requires out { length out.old ≡ 384 }
    ensures packet { take result out.new ≡ net_ndis }
    ensures is_packet { IsPacket (take result out.new) }
    ensures most { result ≤ 384 }
{
    let mut bytes = [0; 40];
    encode_nvsp(
        &Nvsp::NdisVersion {
            major: 6,
            minor: 30,
        },
        &mut bytes,
    );
    build_inband(out, 0, 0, &bytes)
}

/// Writes the packet that tells the page list of the receive buffer by its handle: its words.
#[tactic(auto, unfolding(net_format::specs::Nets::net_receive))]
pub(crate) fn write_receive(id: u64, gpadl: u32, out: &mut [u64]) -> usize
    requires out { length out.old ≡ 384 }
    ensures packet { take result out.new ≡ net_receive id gpadl }
    ensures handle { gpadl < 2 ^ 32 }
    ensures is_packet { IsPacket (take result out.new) }
    ensures most { result ≤ 384 }
{
    let mut bytes = [0; 40];
    encode_nvsp(
        &Nvsp::ReceiveBuffer {
            gpadl,
            id: RECEIVE_BUFFER,
        },
        &mut bytes,
    );
    build_inband(out, id, 1, &bytes)
}

/// Writes the packet that tells the page list of the send buffer: its words.
#[tactic(auto, unfolding(net_format::specs::Nets::net_send))]
pub(crate) fn write_send(id: u64, gpadl: u32, out: &mut [u64]) -> usize
    requires out { length out.old ≡ 384 }
    ensures packet { take result out.new ≡ net_send id gpadl }
    ensures handle { gpadl < 2 ^ 32 }
    ensures is_packet { IsPacket (take result out.new) }
    ensures most { result ≤ 384 }
{
    let mut bytes = [0; 40];
    encode_nvsp(&Nvsp::SendBuffer { gpadl, id: 0 }, &mut bytes);
    build_inband(out, id, 1, &bytes)
}

/// The initialize of the start-up.
pub(crate) fn initialize(id: u64) -> Rndis
    ensures { result ≡ initialize_of id }
{
    Rndis::Initialize {
        request_id: request_id(id),
        major: 1,
        minor: 0,
        max_transfer: 16_384,
    }
}

/// The same message with this request id, where it has one.
pub(crate) fn under(id: u32, m: &Rndis) -> Rndis
    ensures { result ≡ with_id id m.now }
{
    match m {
        Rndis::Query { oid, body, .. } => Rndis::Query {
            request_id: id,
            oid: *oid,
            body: body.again(),
        },
        Rndis::Set { oid, body, .. } => Rndis::Set {
            request_id: id,
            oid: *oid,
            body: body.again(),
        },
        Rndis::Keepalive { .. } => Rndis::Keepalive { request_id: id },
        _ => m.again(),
    }
}

/// What an in-band packet is.
#[derive(Clone, Copy)]
pub(crate) enum Came {
    /// An init with its least and greatest version.
    Init { min: u32, max: u32 },
    /// It tells the page list of the receive buffer.
    Receive,
    /// It tells that of the send buffer.
    Send,
    /// A Remote NDIS message goes with it.
    Rndis,
    /// Anything else.
    Other,
}

/// What a packet is.
#[tactic(auto, unfolding(device_packets::specs::Packets::is_inband))]
pub(crate) fn what_came(packet: &[u64]) -> Came
    requires { IsPacket packet.now }
    ensures { IsCame result packet.now }
{
    if !is_inband(packet) {
        return Came::Other;
    }
    let mut bytes = [0; MOST_BYTES];
    let len = content(packet, &mut bytes);
    let Ok(message) = decode_nvsp(&bytes[..len]) else {
        return Came::Other;
    };
    match message {
        Nvsp::Init { min, max } => Came::Init { min, max },
        Nvsp::ReceiveBuffer { .. } => Came::Receive,
        Nvsp::SendBuffer { .. } => Came::Send,
        Nvsp::RndisPacket { .. } => Came::Rndis,
        _ => Came::Other,
    }
}

/// Whether a packet names parts of a buffer and has at most 384 words.
#[tactic(auto, unfolding(net_format::specs::Nets::is_transfer))]
fn is_transfer(packet: &[u64]) -> bool
    requires { IsPacket packet.now }
    ensures value { result ≡ transfer packet.now }
{
    is_of_type(packet, TRANSFER)
}

/// Whether a packet of the host's brings a Remote NDIS message: it names a part of a buffer, and begins with the network message for it.
#[tactic(auto, unfolding(net_format::specs::Nets::brings_rndis, net_format::specs::Nets::is_transfer))]
pub(crate) fn brings(packet: &[u64]) -> bool
    requires { IsPacket packet.now }
    ensures { result ≡ brings_rndis packet.now }
{
    if !is_transfer(packet) {
        return false;
    }
    let mut bytes = [0; MOST_BYTES];
    let len = content(packet, &mut bytes);
    let Ok(message) = decode_nvsp(&bytes[..len]) else {
        return false;
    };
    match message {
        Nvsp::RndisPacket { .. } => true,
        _ => false,
    }
}

/// The answer to an init with these least and greatest versions.
fn init_answer(min: u32, max: u32) -> Nvsp
    ensures { result ≡ answer_to min max }
{
    let known = matches!(max, 2 | 0x3_0002 | 0x4_0000 | VERSION);
    if known && min <= max {
        Nvsp::InitComplete {
            version: max,
            mdl_chain_length: 1,
            status: 1,
        }
    } else {
        Nvsp::InitComplete {
            version: 0,
            mdl_chain_length: 0,
            status: 2,
        }
    }
}

/// Writes the completion of an init: its words.
#[tactic(auto, unfolding(net_format::specs::Nets::init_done))]
pub(crate) fn write_init_done(packet: &[u64], min: u32, max: u32, out: &mut [u64]) -> usize
    requires packet { IsPacket packet.now }
    requires min { min ≡ least_in packet.now }
    requires max { max ≡ greatest_in packet.now }
    requires out { length out.old ≡ 384 }
    ensures packet { take result out.new ≡ init_done packet.now }
    ensures is_packet { IsPacket (take result out.new) }
    ensures most { result ≤ 384 }
{
    let mut bytes = [0; 40];
    encode_nvsp(&init_answer(min, max), &mut bytes);
    build_comp(out, packet[1], &bytes)
}

/// Writes the completion of the packet that tells the receive buffer's page list: its words. The buffer is one section, of 64 parts of a page each.
#[tactic(auto, unfolding(net_format::specs::Nets::receive_done))]
pub(crate) fn write_receive_done(id: u64, out: &mut [u64]) -> usize
    requires out { length out.old ≡ 384 }
    ensures packet { take result out.new ≡ receive_done id }
    ensures is_packet { IsPacket (take result out.new) }
    ensures most { result ≤ 384 }
{
    let mut bytes = [0; 40];
    encode_nvsp(
        &Nvsp::ReceiveBufferComplete {
            status: 1,
            count: 1,
            offset: 0,
            sub_alloc_size: SECTION,
            num_sub_allocs: PARTS,
            end_offset: SECTION * PARTS,
        },
        &mut bytes,
    );
    build_comp(out, id, &bytes)
}

/// Writes the completion of the one that tells the send buffer's: its words. A section is a page.
#[tactic(auto, unfolding(net_format::specs::Nets::send_done))]
pub(crate) fn write_send_done(id: u64, out: &mut [u64]) -> usize
    requires out { length out.old ≡ 384 }
    ensures packet { take result out.new ≡ send_done id }
    ensures is_packet { IsPacket (take result out.new) }
    ensures most { result ≤ 384 }
{
    let mut bytes = [0; 40];
    encode_nvsp(
        &Nvsp::SendBufferComplete {
            status: 1,
            section_size: SECTION,
        },
        &mut bytes,
    );
    build_comp(out, id, &bytes)
}

/// The answer to an initialize, as the station gives it.
pub(crate) fn initialize_complete(request_id: u32) -> Rndis
    ensures value { result ≡ initialize_reply request_id }
    ensures id { request_id < 2 ^ 32 }
{
    Rndis::InitializeComplete {
        request_id,
        status: 0,
        major: 1,
        minor: 0,
        device_flags: 1,
        medium: 0,
        max_packets: 1,
        max_transfer: 2048,
        alignment: 0,
    }
}

/// The status of a completion of a packet that carried a message, where a packet is one.
#[tactic(auto, unfolding(device_packets::specs::Packets::is_completion))]
pub(crate) fn status(packet: &[u64]) -> Option<u32>
    requires { IsPacket packet.now }
    ensures { result ≡ status_in packet.now }
{
    if !is_completion(packet) {
        return None;
    }
    let mut bytes = [0; MOST_BYTES];
    let len = content(packet, &mut bytes);
    let Ok(message) = decode_nvsp(&bytes[..len]) else {
        return None;
    };
    match message {
        Nvsp::RndisPacketComplete { status } => Some(status),
        _ => None,
    }
}
