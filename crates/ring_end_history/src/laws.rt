//! A law of calls: the function does nothing, and its contract is the law.
ghost use Rattle.std.specs.Prelude.{◌≡◌};
ghost use Rattle.ring_core.specs.Seen.{Seen};
ghost use Rattle.ring_end_history.specs.Calls.{Came};

use ring_core::Seatlike;

/// An end came from each moment to itself by no call, and from a first moment to a third one where it came from the first to a second and from there to the third.
/// Room that is made in its lists is no call.
pub fn calls_follow<S: Seatlike>()
    ensures none { (old new : Seen S) → new.state ≡ old.state → new.seat ≡ old.seat → Came S.tale old new }
    ensures more { (a b c : Seen S) → Came S.tale a b → Came S.tale b c → Came S.tale a c }
{}
