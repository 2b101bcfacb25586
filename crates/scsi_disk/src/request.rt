//! What a disk is asked.

use crate::Chunk;

/// A command for a disk, with the data that it writes.
#[derive(Drop)]
pub struct DiskRequest {
    /// The command descriptor block: its code in byte 0, numbers big-endian.
    pub cdb: [u8; 16],
    /// The bytes that go to the disk; empty where the command writes none.
    pub out: Chunk,
}
