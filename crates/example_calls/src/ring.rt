//! One end of a channel without data pages, over whatever seat: a packet goes, or one comes and its room is given back.
ghost use Rattle.std.specs.Prelude.{◌≡◌, ◌++◌, ◌∷◌, [], ℕ, List, length, Some, OnOk, OnErr, IfErr, IfSome, IfNone};
ghost use Rattle.ring_core.specs.Told.{MakesSteps};
ghost use Rattle.ring_core.specs.Taking.{Takes};
ghost use Rattle.ring_machine.specs.Endings.{send_answer};
ghost use Rattle.ring_machine.specs.States.{IsPacket};
ghost use Rattle.ring_machine.specs.Steps.{send_begun};
ghost use Rattle.example_calls.specs.Calls.{CanSend, CanTake};

use ring_core::{End, Seatlike, SendRefusal, Signalled, TakeRefusal, may_send, may_take};

/// Sends a packet where the end may send it: it stands behind those that were sent before, or nothing is sent. The answer is none exactly where it may not, and
/// otherwise what the steps of the send came to.
pub fn send_one<S: Seatlike>(end: &mut End<S>, p: &[u64]) -> Option<Result<Signalled, SendRefusal>>
    ensures sent { IfSome result (λ r. OnOk r (end.new.state.sent ≡ end.old.state.sent ++ p.now ∷ [])) }
    ensures refused { IfSome result (λ r. OnErr r (end.new.state.sent ≡ end.old.state.sent)) }
    ensures made { IfSome result (λ r. (r ≡ send_answer end.new.state.machine.ended end.new.state.machine) × MakesSteps S.told S.tale (send_begun end.old.state.machine (length p.now)) p.now end.old end.new) }
    ensures not { IfNone result ((end.new ≡ end.old) × (CanSend end.old p.now → ⊥)) }
{
    if !end.is_ready() || !may_send(end, p) {
        return None;
    }
    Some(end.send(p))
}

/// Takes a packet where the end may take one, gives its room in the ring back, and says whether that raised the peer. The packet is the last one in the
/// end's list of those that it got. The answer is none exactly where the end may not take.
pub fn take_one<S: Seatlike>(end: &mut End<S>) -> Option<Result<Signalled, TakeRefusal>>
    ensures got { IfSome result (λ r. OnOk r ((words : List ℕ) × (IsPacket words × (end.new.state.got ≡ end.old.state.got ++ words ∷ []) × (end.new.state.machine.start ≡ end.new.state.machine.read)))) }
    ensures refused { IfSome result (λ r. IfErr r (λ e. (end.new.state.got ≡ end.old.state.got) × Takes S S.told S.tale S.same end.old end.new (Some e))) }
    ensures not { IfNone result ((end.new ≡ end.old) × (CanTake end.old → ⊥)) }
{
    if end.pages() != 0 || !end.is_ready() || !may_take(end) {
        return None;
    }
    match end.take_in() {
        Ok(()) => Some(Ok(end.commit())),
        Err(refusal) => Some(Err(refusal)),
    }
}
