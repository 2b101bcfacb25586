//! What a device is, whatever its kind.
ghost use Rattle.std.specs.Prelude.{◌≡◌};
ghost use Rattle.script_lines.specs.Parts.{shape_of};

use crate::DeviceSpec;
use contact::DeviceKind;

/// What a device is, whatever its kind.
#[derive(Clone, Copy, Debug, PartialEq, Eq)]
pub struct Shape {
    /// Its kind.
    pub kind: DeviceKind,
    /// How many blocks of 512 bytes it has: a disk alone has any.
    pub blocks: u64,
    /// How many channels it has beside the first one.
    pub subs: u32,
}

/// What a device is.
pub fn shape_of(spec: DeviceSpec) -> Shape
    ensures { result ≡ shape_of spec }
{
    let (kind, blocks, subs) = match spec {
        DeviceSpec::Beat => (DeviceKind::Beat, 0, 0),
        DeviceSpec::Down => (DeviceKind::Down, 0, 0),
        DeviceSpec::Disk { blocks, subs } => (DeviceKind::Disk, blocks, subs),
        DeviceSpec::Net { .. } => (DeviceKind::Net, 0, 0),
        DeviceSpec::Kvp => (DeviceKind::Kvp, 0, 0),
    };
    Shape { kind, blocks, subs }
}
