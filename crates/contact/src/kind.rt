//! What a channel offers.
ghost use Rattle.std.specs.Prelude.{◌≡◌};
ghost use Rattle.contact.specs.Classes.{offered_kind};

/// A kind of device that a script can offer. What an offer says of its channel is a `Kind`.
#[derive(Clone, Copy, Debug, PartialEq, Eq)]
pub enum DeviceKind {
    /// The heartbeat service.
    Beat,
    /// The shutdown service.
    Down,
    /// A SCSI disk.
    Disk,
    /// A network device.
    Net,
    /// The key-value service.
    Kvp,
}

/// What is at the other end of an offered channel: a device, or a service that listens at a port.
#[derive(Clone, Copy, Debug, PartialEq, Eq)]
pub enum Kind {
    /// The heartbeat service.
    Beat,
    /// The shutdown service.
    Down,
    /// A SCSI disk.
    Disk,
    /// A network device.
    Net,
    /// The key-value service.
    Kvp,
    /// A socket's service.
    Sock {
        /// The port at which the service listens.
        port: u32,
    },
}

/// What the offer of a device of this kind says.
pub fn offered_kind(kind: DeviceKind) -> Kind
    ensures { result ≡ offered_kind kind }
{
    match kind {
        DeviceKind::Beat => Kind::Beat,
        DeviceKind::Down => Kind::Down,
        DeviceKind::Disk => Kind::Disk,
        DeviceKind::Net => Kind::Net,
        DeviceKind::Kvp => Kind::Kvp,
    }
}
