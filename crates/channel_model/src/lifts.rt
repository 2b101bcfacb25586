//! A law of a wire format in the asks and replies of all kinds of devices: the function does nothing, and its contract is the law.
ghost use Rattle.channel_model.specs.Lift.{Among, IsAmong, lift};
ghost use Rattle.channel_model.specs.WireFormat.{Keeps, WireFormat};

/// The packets of one kind of device keep to the laws of a wire format among those of all kinds as they do by themselves. `A`, `Q` and `R` are this kind's
/// asks, requests and replies, and `B`, `C` and `D` those of all kinds.
pub fn keeps_lifted<P, A, Q, R, B, C, D>()
    ensures { (s : WireFormat P A Q R) (among : Among A Q R B C D) → IsAmong among → Keeps s → Keeps (lift s among) }
{}
