//! The law of fronts, over the grammar of control messages.
ghost use Rattle.std.specs.Prelude.{◌≡◌, ℕ, ◌<◌, List, length, take, Some, true, false};
ghost use Rattle.vmbus_msg.specs.declared.fault.MsgFault.TheVariants.{Short};
ghost use Rattle.vmbus_msg.specs.declared.msg.Msg.{Msg};
ghost use Rattle.vmbus_msg.specs.Faults.{fault_of};
ghost use Rattle.vmbus_msg.specs.Grammar.{IsMessage};
ghost use Rattle.vmbus_msg_truncated.specs.Fronts.{HasFirstFrames, ends_between_frames, frames_before, needed};

/// A front of a message's bytes is too short, unless it ends between two frames of a page list's body.
pub fn fronts_are_short()
    ensures { (m : Msg) (b : List ℕ) (n : ℕ) → IsMessage m b → n < length b → ends_between_frames m n ≡ false → fault_of (take n b) ≡ Some (Short n (needed m n)) }
{}

/// A front that ends there is the body with the frames before.
pub fn fronts_are_fewer_frames()
    ensures { (m : Msg) (b : List ℕ) (n : ℕ) → IsMessage m b → n < length b → ends_between_frames m n ≡ true → (r : Msg) × HasFirstFrames (frames_before n) m r × IsMessage r (take n b) }
{}
