//! A place at a channel's device.
use crate::Protocol;
use std::sync::Wait;

/// A place from which the serving end's worker calls its device. The device is of the kind that the protocol is about.
pub trait Device<T: Protocol>: Drop {
    ghost use Rattle.std.specs.Prelude.{◌≡◌, ◌<◌, ◌+◌, ℕ, true, List, [], ◌∷◌, ◌++◌, Some};
    ghost use Rattle.hist_lock.specs.Seat.{Call};
    ghost use Rattle.page_kept.specs.declared.item.Item.{Item};

    /// The calls that were made, each with its serial, in order.
    ghost calls: { Self → List (Call T.Request T.Reply) };

    /// How many calls may still be made.
    ghost left: { Self → ℕ };

    /// The device serves what is asked in this protocol.
    ghost serves: { Self → T → Type 0 };

    /// A later state of one and the same seat.
    ghost same: { Self → Self → Type 0 };

    ghost same_refl: { (s : Self) → same s s };

    ghost same_trans: { (s t u : Self) → same s t → same t u → same s u };

    /// How many calls may still be made.
    fn left(&self) -> u32
        ensures { result ≡ left self.now };

    /// Makes a call, and gives its serial and the reply.
    fn call<R: Wait>(&mut self, rt: &R, protocol: &T, request: T::Request) -> (u32, T::Reply)
        requires some { 0 < left self.old }
        requires serves { serves self.old protocol.now }
        requires asked { (p : Item) × ((T.format protocol.now).read p ≡ Some request) }
        ensures calls { calls self.new ≡ calls self.old ++ record { serial = result.0; request = request; reply = result.1 } ∷ [] }
        ensures fits { (T.format protocol.now).fits request result.1 ≡ true }
        ensures left { left self.new + 1 ≡ left self.old }
        ensures serves { serves self.new protocol.now }
        ensures same { same self.old self.new };
}
