//! The class ids of channels.
ghost use Rattle.std.specs.Prelude.{◌≡◌, ◌≢◌, MatchOption};
ghost use Rattle.contact.specs.Classes.{class_id};
ghost use Rattle.contact.specs.declared.kind.Kind.{Kind};

use crate::Kind;
use crate::service::{port_in, service_id};

// As HV_HEART_BEAT_GUID, HV_SHUTDOWN_GUID, HV_SCSI_GUID, HV_NIC_GUID and HV_KVP_GUID of Linux
// (include/linux/hyperv.h): of the five groups the first three are little-endian.
const BEAT: [u8; 16] = [
    0x39, 0x4f, 0x16, 0x57, 0x15, 0x91, 0x78, 0x4e, 0xab, 0x55, 0x38, 0x2f, 0x3b, 0xd5, 0x42, 0x2d,
];

const DOWN: [u8; 16] = [
    0x31, 0x60, 0x0b, 0x0e, 0x13, 0x52, 0x34, 0x49, 0x81, 0x8b, 0x38, 0xd9, 0x0c, 0xed, 0x39, 0xdb,
];

const DISK: [u8; 16] = [
    0xd9, 0x63, 0x61, 0xba, 0xa1, 0x04, 0x29, 0x4d, 0xb6, 0x05, 0x72, 0xe2, 0xff, 0xb1, 0xdc, 0x7f,
];

const NET: [u8; 16] = [
    0x63, 0x51, 0x61, 0xf8, 0x3e, 0xdf, 0xc5, 0x46, 0x91, 0x3f, 0xf2, 0xd2, 0xf9, 0x65, 0xed, 0x0e,
];

const KVP: [u8; 16] = [
    0xe7, 0xf4, 0xa0, 0xa9, 0x45, 0x5a, 0x96, 0x4d, 0xb8, 0x27, 0x8a, 0x84, 0x1e, 0x8c, 0x03, 0xe6,
];

/// The class id of a kind.
pub fn class_id(kind: Kind) -> [u8; 16]
    ensures { result ≡ class_id kind }
{
    match kind {
        Kind::Beat => BEAT,
        Kind::Down => DOWN,
        Kind::Disk => DISK,
        Kind::Net => NET,
        Kind::Kvp => KVP,
        Kind::Sock { port } => service_id(port),
    }
}

/// The kind with this class id, if one has it.
pub fn kind_of(id: &[u8; 16]) -> Option<Kind>
    ensures { MatchOption result ((kind : Kind) → id.now ≢ class_id kind) (λ kind. id.now ≡ class_id kind) }
{
    if *id == BEAT {
        Some(Kind::Beat)
    } else if *id == DOWN {
        Some(Kind::Down)
    } else if *id == DISK {
        Some(Kind::Disk)
    } else if *id == NET {
        Some(Kind::Net)
    } else if *id == KVP {
        Some(Kind::Kvp)
    } else {
        match port_in(id) {
            Some(port) => Some(Kind::Sock { port }),
            None => None,
        }
    }
}
