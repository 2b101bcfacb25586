//! A guest's heartbeat and shutdown services: the packet of a request is answered.
ghost use Rattle.std.specs.Prelude.{◌≡◌, ◌≤◌, length, take, IfSome, IfNone};
ghost use Rattle.vm_page.specs.Words.{bytes_in};
ghost use Rattle.pkt_desc.specs.Packets.{IsPacket, Carries, kind_of, id_of, payload_of};
ghost use Rattle.util_ic.specs.Messages.{IsUtility};
ghost use Rattle.util_ic.specs.Answers.{utility_answer};

use crate::payload::read_packet;
use contact::DeviceKind;
use pkt_desc::build_inband;
use util_ic::serve;

/// Writes the answer to a packet of a service's channel, and answers how many words it has: in-band data under the request's id, which asks for no completion. Of the
/// request all bytes are read; what its sender put behind its message to fill the last word comes back too. None exactly where the words are no packet of in-band data.
pub fn answer_service(kind: DeviceKind, request: &[u64], out: &mut [u64]) -> Option<usize>
    requires kind { IsUtility kind }
    requires words { (2 ≤ length request.now) × (length request.now ≤ 384) }
    requires room { 384 ≤ length out.old }
    ensures answered { IfSome result (λ n. Carries (take n out.new) 6 (id_of request.now) 0 (utility_answer kind (bytes_in (payload_of request.now)))) }
    ensures other { IfNone result (IsPacket request.now → kind_of request.now ≡ 6 → ⊥) }
    ensures kept { IfNone result (out.new ≡ out.old) }
{
    let mut bytes = [0; 3056];
    let (desc, len) = read_packet(request, &mut bytes)?;
    if desc.kind != 6 {
        return None;
    }
    let mut answer = [0; 3056];
    let len = serve(&bytes[..len], kind, &mut answer);
    Some(build_inband(out, desc.tid, 0, &answer[..len]))
}
