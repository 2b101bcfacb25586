//! Laws: a function does nothing, and its contract is the law.
ghost use Rattle.std.specs.Prelude.{ℕ, Bool, List};
ghost use Rattle.page_kept.specs.declared.item.Item.{Item};
ghost use Rattle.page_kept.specs.Items.{packets};
ghost use Rattle.hist_lock.specs.Seat.{Call};
ghost use Rattle.channel_model.specs.Amounts.{MayHaveMessages};
ghost use Rattle.channel_model.specs.Channel.{IsProtocolRun, RequestPlan};
ghost use Rattle.channel_protocol.specs.Paged.{in_packets};
ghost use Rattle.channel_protocol.specs.Echo.{echo_format};
ghost use Rattle.channel_model.specs.WireFormat.{Keeps, WireFormat};

/// A device that replies what it was asked, in a message before the answer, and packets of three words for it: an example of what the packets of a channel
/// keep to.
pub fn echo_keeps()
    ensures { Keeps echo_format }
{}

/// What packets say keeps to its laws in items that carry each packet as it is, has messages besides the answers where it had them, and a run of these items is
/// one of their packets, with the same calls and replies.
pub fn packets_carry_over<A, Q, R>()
    ensures keeps { (s : WireFormat (List ℕ) A Q R) → Keeps s → Keeps (in_packets s) }
    ensures may { (s : WireFormat (List ℕ) A Q R) (besides : Bool) → MayHaveMessages s besides → MayHaveMessages (in_packets s) besides }
    ensures run { (s : WireFormat (List ℕ) A Q R) (plan : RequestPlan A) (sent got server_sent server_got : List Item) (calls : List (Call Q R)) (told : List R) → IsProtocolRun (in_packets s) plan sent got server_sent server_got calls told → IsProtocolRun s plan (packets sent) (packets got) (packets server_sent) (packets server_got) calls told }
{}
