//! Inquiry data.
ghost use Rattle.std.specs.Prelude.{◌≡◌, ◌≤◌, length, take};
ghost use Rattle.scsi_disk.specs.DiskModel.{inquiry_data};

use crate::Chunk;
use crate::chunk::first;

/// What the disk says of itself: version 5, response format 2, 31 further bytes, and its names.
const DATA: [u8; 36] = *b"\0\0\x05\x02\x1f\0\0\0RATTLE  VMBUS DISK      1.0 ";

/// The first bytes of the inquiry data, at most so many.
pub(crate) fn inquiry(allocation: u64) -> Chunk
    ensures value { result ≡ take allocation inquiry_data }
    ensures most { length result ≤ 36 }
{
    first(&DATA, allocation)
}
