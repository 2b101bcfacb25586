//! Packets of a utility channel. The host asks with in-band packets, and the guest answers each with one.
//!
//! Source: Linux 6.12, `drivers/hv/hv_util.c` and `drivers/hv/channel_mgmt.c`.
ghost use Rattle.std.specs.Prelude.{◌≡◌, ◌≤◌, length, take, true};
ghost use Rattle.ring_machine.specs.States.{IsPacket};
ghost use Rattle.util_ic.specs.Messages.{IsUtility};
ghost use Rattle.util_ic.specs.Packets.{ask_packet, negotiate_packet, served_packet};
ghost use Rattle.device_packets.specs.Packets.{is_inband as inband};
ghost use Rattle.ic_format.specs.Services.{service_read, service_fixed, service_result};

use contact::DeviceKind;
use device_packets::{MOST_BYTES, content, is_inband};
use pkt_desc::build_inband;
use util_ic::{IcAnswer, IcAsk, ask, negotiate, read_answer, read_ask, serve};

/// Writes the packet that asks a service under an id: its words.
pub(crate) fn write_ask(request: &IcAsk, id: u64, out: &mut [u64]) -> usize
    requires { length out.old ≡ 384 }
    ensures packet { take result out.new ≡ ask_packet id request.now }
    ensures is_packet { IsPacket (take result out.new) }
    ensures most { result ≤ 384 }
{
    let mut bytes = [0; 2_112];
    let len = ask(request, &mut bytes);
    build_inband(out, id, 0, &bytes[..len])
}

/// Writes the packet of the start-up under an id: its words.
pub(crate) fn write_negotiate(kind: DeviceKind, id: u64, out: &mut [u64]) -> usize
    requires kind { IsUtility kind }
    requires out { length out.old ≡ 384 }
    ensures packet { take result out.new ≡ negotiate_packet id }
    ensures is_packet { IsPacket (take result out.new) }
    ensures most { result ≤ 384 }
{
    let mut bytes = [0; 2_112];
    let len = negotiate(kind, &mut bytes);
    build_inband(out, id, 0, &bytes[..len])
}

/// What a packet asks of the service, where it is in-band.
#[tactic(auto, unfolding(ic_format::specs::Services::service_read, device_packets::specs::Packets::is_inband))]
pub(crate) fn asked(kind: DeviceKind, packet: &[u64]) -> Option<IcAsk>
    requires kind { IsUtility kind }
    requires packet { IsPacket packet.now }
    ensures value { result ≡ service_read kind packet.now }
{
    if !is_inband(packet) {
        return None;
    }
    let mut bytes = [0; MOST_BYTES];
    let len = content(packet, &mut bytes);
    read_ask(&bytes[..len], kind)
}

/// Writes the service's answer to a request of these bytes under an id: its words.
pub(crate) fn write_served(kind: DeviceKind, id: u64, request: &[u8], out: &mut [u64]) -> usize
    requires kind { IsUtility kind }
    requires few { length request.now ≤ 3056 }
    requires out { length out.old ≡ 384 }
    ensures packet { take result out.new ≡ served_packet id kind request.now }
    ensures is_packet { IsPacket (take result out.new) }
    ensures most { result ≤ 384 }
{
    let mut reply = [0; MOST_BYTES];
    let count = serve(request, kind, &mut reply);
    build_inband(out, id, 0, &reply[..count])
}

/// Writes the answer to a request of the service, with the service's reply: its words. The reply is what the service's table of answers says.
#[tactic(auto, unfolding(ic_format::specs::Services::service_fixed, device_packets::specs::Packets::is_inband))]
pub(crate) fn write_service_answer(kind: DeviceKind, packet: &[u64], out: &mut [u64]) -> usize
    requires kind { IsUtility kind }
    requires packet { IsPacket packet.now }
    requires inband { inband packet.now ≡ true }
    requires out { length out.old ≡ 384 }
    ensures packet { take result out.new ≡ service_fixed kind packet.now }
    ensures is_packet { IsPacket (take result out.new) }
    ensures most { result ≤ 384 }
{
    let mut bytes = [0; MOST_BYTES];
    let len = content(packet, &mut bytes);
    write_served(kind, packet[1], &bytes[..len], out)
}

/// What an answer says, where it is in-band.
#[tactic(auto, unfolding(ic_format::specs::Services::service_result, device_packets::specs::Packets::is_inband))]
pub(crate) fn said(kind: DeviceKind, packet: &[u64]) -> Option<IcAnswer>
    requires kind { IsUtility kind }
    requires packet { IsPacket packet.now }
    ensures value { result ≡ service_result kind packet.now }
{
    if !is_inband(packet) {
        return None;
    }
    let mut bytes = [0; MOST_BYTES];
    let len = content(packet, &mut bytes);
    Some(read_answer(&bytes[..len], kind))
}
