//! Why a request doesn't reach the disk.

use thiserror::Error;

/// A request for another device, or with a command that is too long. No disk is asked.
#[derive(Clone, Copy, Debug, PartialEq, Eq, Error)]
#[error("srb stop {status}")]
pub struct SrbStop {
    /// The srb_status of the answer: 0x20 for another device, 4 for a command above 16 bytes.
    pub status: u8,
}
