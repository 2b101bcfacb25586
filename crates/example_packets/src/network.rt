//! A host's network device: what a guest's packet brings is served, and completed.
ghost use Rattle.std.specs.Prelude.{◌≡◌, ◌≤◌, ℕ, length, take, IfSome, IfNone, MatchOption};
ghost use Rattle.net_dev.specs.Nvsp.{IsNvsp, nvsp_bytes};
ghost use Rattle.net_dev.specs.declared.nvsp.Nvsp.TheVariants.{RndisPacket, RndisPacketComplete};
ghost use Rattle.net_dev.specs.Station.{station_reply, station_after};
ghost use Rattle.rndis_msg.specs.Grammar.{IsRndis};
ghost use Rattle.rndis_msg.specs.Reading.{message_in};

use hist_lock::Machine;
use net_dev::{Nvsp, Station, decode_nvsp, encode_nvsp};
use rndis_msg::{decode, encode};

/// Serves what an NVSP message brings, where it brings a Remote NDIS message: its completion, and how many bytes of `out` the message has that goes back to the guest, 0
/// where none does. The Remote NDIS message stands in `message`, wherever it came from: a section of the send buffer, or the packet's pages.
pub fn serve_packet(
    station: &mut Station,
    nvsp: &[u8],
    message: &[u8],
    out: &mut [u8],
) -> Option<([u8; 40], usize)>
    requires { 1600 ≤ length out.old }
    ensures completed { IfSome result (λ r. r.0 ≡ nvsp_bytes (RndisPacketComplete (station_reply station.old (message_in message.now)).status)) }
    ensures back { IfSome result (λ r. MatchOption (station_reply station.old (message_in message.now)).back (r.1 ≡ 0) (λ m. IsRndis m (take r.1 out.new))) }
    ensures served { IfSome result (λ _. station.new ≡ station_after station.old (message_in message.now)) }
    ensures only { IfNone result ((channel section size : ℕ) → IsNvsp (RndisPacket channel section size) nvsp.now → ⊥) }
    ensures kept { IfNone result ((station.new ≡ station.old) × (out.new ≡ out.old)) }
{
    let Ok(Nvsp::RndisPacket { .. }) = decode_nvsp(nvsp) else {
        return None;
    };
    let reply = station.apply(&decode(message));
    let mut completion = [0; 40];
    let status = reply.status;
    encode_nvsp(&Nvsp::RndisPacketComplete { status }, &mut completion);
    let len = match &reply.back {
        Some(back) => encode(back, out),
        None => 0,
    };
    Some((completion, len))
}
