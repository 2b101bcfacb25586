//! What one line asks of a disk.

/// A disk's request, before it is held against the lines before it. A value out of range is none.
#[derive(Clone, Copy)]
pub enum DiskAsk {
    /// Whether it is there.
    Ready,
    /// What it is.
    Inquiry,
    /// How many blocks it has, in 32 bits.
    Capacity,
    /// How many blocks it has, in 64 bits.
    LongCapacity,
    /// Nothing is to stay in a cache.
    Flush,
    /// It gives so many blocks from a place on.
    Read {
        /// The first block.
        lba: Option<u64>,
        /// How many blocks.
        count: Option<u32>,
    },
    /// It fills so many blocks from a place on with one byte.
    Write {
        /// The first block.
        lba: Option<u64>,
        /// How many blocks.
        count: Option<u32>,
        /// The byte.
        byte: u8,
    },
}
