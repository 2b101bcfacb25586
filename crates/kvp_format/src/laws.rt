//! Laws of what the packets of a key-value channel say: each function does nothing, and its contract is a law.
ghost use Rattle.std.specs.Prelude.{◌≡◌, ℕ, true, false, List, Some, None};
ghost use Rattle.contact.specs.declared.kind.DeviceKind.TheVariants.{Kvp as KindKvp};
ghost use Rattle.pkt_desc.specs.Packets.{id_of, inband_packet};
ghost use Rattle.util_ic.specs.Packets.{served_packet};
ghost use Rattle.kvp_ic.specs.declared.fault.KvpFault.{KvpFault};
ghost use Rattle.kvp_ic.specs.declared.message.Kvp.{Kvp as Request};
ghost use Rattle.kvp_ic.specs.declared.message.KvpReply.{KvpReply};
ghost use Rattle.kvp_ic.specs.Answers.{kvp_answer};
ghost use Rattle.kvp_ic.specs.Faults.{fault_of};
ghost use Rattle.kvp_ic.specs.Machine.{told, IsReplyTo};
ghost use Rattle.kvp_ic.specs.Messages.{CanBeAsked};
ghost use Rattle.device_packets.specs.Packets.{content_of};
ghost use Rattle.device_wire.specs.WireModels.{KeepsWire};
ghost use Rattle.kvp_format.specs.Pairs.{is_pair_message, kvp_model, pair_fits, pair_fixed, pair_read};

/// The packets of a key-value channel keep to what a kind of device keeps to: each in-band packet is answered once, under its id, and the reply is read in the answer.
pub fn keeps_to_its_laws()
    ensures { KeepsWire kvp_model CanBeAsked }
{}

/// Each reply that the service may give fits its request.
pub fn replies_fit()
    ensures { (request : Request) (reply : KvpReply) → IsReplyTo request reply → pair_fits request reply ≡ true }
{}

/// A key-value message that is refused asks nothing of the service, whatever its fault, and is answered with status 0x80070057.
pub fn a_refused_message_asks_nothing()
    ensures { (p : List ℕ) (fault : KvpFault) → is_pair_message (content_of p) ≡ true → fault_of (content_of p) ≡ Some fault
        → (pair_read p ≡ None) × (pair_fixed p ≡ inband_packet (id_of p) 0 (kvp_answer (content_of p) (told 0x8007_0057))) }
{}

/// What is no key-value message is answered by the table of the utility services.
pub fn another_message_is_served()
    ensures { (p : List ℕ) → is_pair_message (content_of p) ≡ false → (pair_read p ≡ None) × (pair_fixed p ≡ served_packet (id_of p) KindKvp (content_of p)) }
{}
