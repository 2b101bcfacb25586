//! First contact and the offers, over the messages' bytes.
ghost use Rattle.std.specs.Prelude.{◌≡◌, ◌<◌, ◌≤◌, ℕ, take, All, IfSome, IfNone};
ghost use Rattle.vmbus_msg.specs.Grammar.{IsMessage};
ghost use Rattle.vmbus_msg.specs.declared.msg.Msg.{Msg as OneMsg};
ghost use Rattle.vmbus_msg.specs.declared.msg.Msg.TheVariants.{InitiateContact, VersionResponse};
ghost use Rattle.contact.specs.Versions.{versions, oldest, IsVersion};
ghost use Rattle.contact.specs.Classes.{Offers};
ghost use Rattle.contact.specs.declared.channel_offer.Offered.{Offered as OneOffered};
ghost use Rattle.example_packets.specs.Versions.{Supports, Refuses};

use contact::{Offered, Version, host_accepts, next_version, read_offer};
use vmbus_msg::{Msg, decode, encode};

/// A host's answer to a guest's first message: whether it supports the version that the guest asks for. Answers how many bytes that has, or none for another message.
pub fn answer_contact(bytes: &[u8], highest: Version, out: &mut [u8; 240]) -> Option<usize>
    ensures answered { IfSome result (λ n. (padding version vcpu page monitor1 monitor2 supported : ℕ) × IsMessage (InitiateContact padding version vcpu page monitor1 monitor2) bytes.now × Supports supported version highest.0 × IsMessage (VersionResponse 0 supported 0 0 1) (take n out.new)) }
    ensures other { IfNone result ((padding version vcpu page monitor1 monitor2 : ℕ) → IsMessage (InitiateContact padding version vcpu page monitor1 monitor2) bytes.now → ⊥) }
    ensures kept { IfNone result (out.new ≡ out.old) }
{
    match decode(bytes) {
        Ok(Msg::InitiateContact { version, .. }) => {
            let answer = Msg::VersionResponse {
                padding: 0,
                supported: u8::from(host_accepts(highest, Version(version))),
                state: 0,
                padding2: 0,
                conn: 1,
            };
            Some(encode(&answer, out))
        }
        _ => None,
    }
}

/// The version that a guest asks for next, where the host's answer refuses this one: the next lower one. None where it doesn't, or where none is left.
pub fn lower(bytes: &[u8], asked: Version) -> Option<Version>
    requires { IsVersion asked.0 }
    ensures lower { IfSome result (λ next. Refuses bytes.now × IsVersion next.0 × (next.0 < asked.0) × All (λ u. u < asked.0 → u ≤ next.0) versions) }
    ensures none { IfNone result (Refuses bytes.now → asked.0 ≡ oldest) }
{
    match decode(bytes) {
        Ok(Msg::VersionResponse { supported: 0, .. }) => next_version(asked),
        _ => None,
    }
}

/// What a message offers, where it is the offer of a channel whose device has a known class.
pub fn offered(bytes: &[u8]) -> Option<Offered>
    ensures offered { IfSome result (λ o. (m : OneMsg) × IsMessage m bytes.now × Offers m o) }
    ensures none { IfNone result ((m : OneMsg) (o : OneOffered) → IsMessage m bytes.now → Offers m o → ⊥) }
{
    let Ok(message) = decode(bytes) else {
        return None;
    };
    match message {
        Msg::OfferChannel { .. } => read_offer(&message).ok(),
        _ => None,
    }
}
