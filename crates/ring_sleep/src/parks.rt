//! A seat on which a thread can wait.
use ring_core::{Seatlike, ToldMem};
use std::sync::Wait;

/// A seat on which a thread can wait for its end's signal.
pub trait Parks: Seatlike {
    ghost use Rattle.std.specs.Prelude.{◌≡◌};

    /// What tells one channel from another.
    ghost Channel: { Type 0 };

    /// The channel of a seat.
    ghost channel: { Self → Channel };

    /// Parks the thread while the end's signal is down, or for no reason.
    fn park<R: Wait>(&self, rt: &R);

    ghost same_channel: { (s t : Self) → Self.same s t → channel t ≡ channel s };
}

// Nobody waits for a told memory: its changes come with the steps that a poll makes.
impl Parks for ToldMem {
    ghost use Rattle.std.specs.Prelude.{refl};

    ghost Channel = { Unit {0} };

    ghost channel = { λ _. tt };

    ghost same_channel = { λ _ _ _. refl };

    fn park<R: Wait>(&self, _rt: &R) {}
}
