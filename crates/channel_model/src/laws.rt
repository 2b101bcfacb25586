//! Laws of a channel's run: each function does nothing, and its contract is a law.
//!
//! `P` are the packets, `A` what the asking end has to ask, `Q` what the serving end's device is asked, and `R` its replies.
ghost use Rattle.std.specs.Prelude.{◌≡◌, ◌≤◌, ℕ, Bool, List, Option, length, map};
ghost use Rattle.channel_trace.specs.declared.event.Event.{Event};
ghost use Rattle.channel_trace.specs.Runs.{sent_of, got_of};
ghost use Rattle.channel_trace.specs.Laws.{AreOfOneRun};
ghost use Rattle.hist_lock.specs.Seat.{Call};
ghost use Rattle.io_edge.specs.declared.side.Side.{Side};
ghost use Rattle.channel_model.specs.WireFormat.{WireFormat, Keeps};
ghost use Rattle.channel_model.specs.Acks.{OwnFrom, OwnOnce, own_open};
ghost use Rattle.channel_model.specs.Asker.{Encoded, requests_of};
ghost use Rattle.channel_model.specs.Server.{InOrder, answered};
ghost use Rattle.channel_model.specs.Settled.{IsSettled, SettledOnce};
ghost use Rattle.channel_model.specs.Channel.{RequestPlan, IsRequestPlan, AskerEnds, ServerEnds, IsProtocolRun};
ghost use Rattle.channel_model.specs.Channel.{count_of, held_of};
ghost use Rattle.channel_model.specs.Amounts.{NeverOver};
ghost use Rattle.channel_model.specs.Outcome.{lines_of, outcomes_of};
ghost use Rattle.channel_model.specs.Roles.{asker_past, server_past};

/// Where the serving end answers in order, no answer is dropped: the k-th answer that was got settles the k-th request that has an answer, the
/// requests past these are open, and the replies are what the answers say, in order.
pub fn settles_in_order<P, A, Q, R>()
    ensures { (s : WireFormat P A Q R) (asks : List A) (asker server : List (Event P)) →
        AreOfOneRun asker server → InOrder s server → Encoded s asks (requests_of s asker) → IsSettled s asks asker }
{}

/// Each request that was sent and has an answer is open, or was closed by an answer, and that once. So is each message besides, by what acknowledges it.
pub fn settles_once<P, A, Q, R>()
    ensures asked { (s : WireFormat P A Q R) (asks : List A) (past : List (Event P)) → SettledOnce s asks past }
    ensures own { (s : WireFormat P A Q R) (past : List (Event P)) → OwnOnce s past }
{}

/// Where each message is sent under an id from 1 to so many under which none is open, no more than so many are open.
pub fn few_open<P, A, Q, R>()
    ensures { (s : WireFormat P A Q R) (most : ℕ) (past : List (Event P)) → OwnFrom s most past → length (own_open s past) ≤ most }
{}

/// Two ends that keep to one plan, each in its role, make a run of the channel: what was sent came out as it went in, the requests are the start-up's
/// and then the script's, each served request was a call of the device and was answered by its reply, the messages besides were acknowledged in order, and
/// the replies that were read are those.
pub fn joins<P, A, Q, R>()
    ensures { (s : WireFormat P A Q R) → Keeps s → (plan : RequestPlan A) → IsRequestPlan s plan →
        (asker server : List (Event P)) (calls : List (Call Q R)) (told : List R) → AreOfOneRun asker server →
        AskerEnds s plan asker told → ServerEnds s plan server calls →
        IsProtocolRun s plan (sent_of asker) (got_of asker) (sent_of server) (got_of server) calls told }
{}

/// The serials of the serving end's calls and the replies that the asking end read are all that the outcomes of the lines need.
pub fn makes_outcomes<P, A, Q, R>()
    ensures { (s : WireFormat P A Q R) (stop : Option (ℕ × Bool)) (m : ℕ) (calls : List (Call Q R)) (told : List R) →
        length calls ≡ count_of stop m →
        told ≡ map (λ c. c.reply) (answered s (held_of stop m) (count_of stop m) calls) →
        lines_of m (map (λ c. c.serial) calls) told ≡ outcomes_of stop m calls }
{}

/// Two ends that keep to the wire format never send more than the other one can have room for: at most so many requests are asked, each brings one answer and
/// one message besides at most, and each message one acknowledgement. Where no messages go back besides the answers there are none, and no room is
/// needed for them.
pub fn never_over<P, A, Q, R>()
    ensures { (s : WireFormat P A Q R) (besides : Bool) (most : ℕ) (asker server : List (Event P)) → NeverOver s besides most asker server }
{}

/// Guest and host are of one run exactly as the end that asks and the end that serves are, whichever of the two asks.
pub fn has_roles<P>()
    ensures { (side : Side) (guest host : List (Event P)) →
        AreOfOneRun guest host → AreOfOneRun (asker_past side guest host) (server_past side guest host) }
{}
