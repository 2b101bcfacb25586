//! What is decoded of a disk's answer.

use stor_proto::SrbEnd;

/// How the srb of a completion ended, and how many bytes came with it.
#[derive(Clone, Copy, Debug, PartialEq, Eq)]
pub struct DiskAnswer {
    /// How it ended.
    pub end: SrbEnd,
    /// How many bytes came.
    pub came: u64,
}
