//! Big-endian fields.
ghost use Rattle.std.specs.Prelude.{◌≡◌, ◌≤◌, ◌<◌, ◌^◌, length};
ghost use Rattle.scsi_disk.specs.BigEndian.{be_number};

use byteorder::{BigEndian, ByteOrder};

/// The number that a field of at most 8 bytes spells, the highest byte first.
pub(crate) fn number(field: &[u8]) -> u64
    requires { length field.now ≤ 8 }
    ensures value { result ≡ be_number field.now }
    ensures fits { result < 256 ^ length field.now }
{
    if field.is_empty() {
        return 0;
    }
    BigEndian::read_uint(field, field.len())
}
