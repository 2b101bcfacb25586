//! Laws of a wire format whose packets are carried by others: each function does nothing, and its contract is a law.
ghost use Rattle.std.specs.Prelude.{◌≡◌};
ghost use Rattle.channel_model.specs.Carried.{Closes, carried};
ghost use Rattle.channel_model.specs.WireFormat.{Keeps, WireFormat};

/// A wire format keeps to its laws where other packets carry it, if what is written is read as it was meant. `P` are the packets, and `O` those that carry them.
pub fn keeps_carried<P, O, A, Q, R>()
    ensures { (opens : O → P) (ask message answer : P → O) (s : WireFormat P A Q R) → Keeps s → Closes opens ask message answer s → Keeps (carried opens ask message answer s) }
{}

/// Two functions that undo each other carry any wire format.
pub fn closes_all<P, O, A, Q, R>()
    ensures { (opens : O → P) (close : P → O) (s : WireFormat P A Q R) → ((p : P) → opens (close p) ≡ p) → Closes opens close close close s }
{}
