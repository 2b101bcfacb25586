//! Laws of what the packets of a utility channel say: each function does nothing, and its contract is a law.
ghost use Rattle.contact.specs.declared.kind.DeviceKind.{DeviceKind};
ghost use Rattle.device_wire.specs.WireModels.{KeepsWire};
ghost use Rattle.ic_format.specs.Services.{ic_model, IsIcAsk};

/// The packets of a service's channel keep to what a kind of device keeps to: each in-band packet is answered once, under its id, and the reply is read in the answer. The start-up asks nothing of
/// the service, and a request that can be asked asks it that.
pub fn keeps_to_its_laws()
    ensures { (kind : DeviceKind) → KeepsWire (ic_model kind) (IsIcAsk kind) }
{}
