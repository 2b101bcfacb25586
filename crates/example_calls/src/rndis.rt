//! A Remote NDIS message is read and answered: a keepalive comes back as complete.
ghost use Rattle.std.specs.Prelude.{◌≡◌, ℕ, ◌≤◌, IfSome, IfNone, length, take};
ghost use Rattle.rndis_msg.specs.Grammar.{BeginsWith, IsRndis};
ghost use Rattle.rndis_msg.specs.declared.rndis.Rndis.TheVariants.{Keepalive, KeepaliveComplete};

use rndis_msg::{Rndis, decode, encode};

/// Where the bytes begin with a keepalive, writes its completion with status 0, and answers how many bytes that has.
pub fn answer_keepalive(bytes: &[u8], out: &mut [u8]) -> Option<usize>
    requires { 1600 ≤ length out.old }
    ensures answered { IfSome result (λ n. (id : ℕ) × (BeginsWith (Keepalive id) bytes.now × IsRndis (KeepaliveComplete id 0) (take n out.new))) }
    ensures other { IfNone result ((id : ℕ) → BeginsWith (Keepalive id) bytes.now → ⊥) }
    ensures kept { IfNone result (out.new ≡ out.old) }
{
    match decode(bytes) {
        Ok(Rndis::Keepalive { request_id }) => {
            let answer = Rndis::KeepaliveComplete {
                request_id,
                status: 0,
            };
            Some(encode(&answer, out))
        }
        _ => None,
    }
}
