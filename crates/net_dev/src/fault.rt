//! Why bytes are no NVSP message.

use thiserror::Error;

/// Why bytes don't begin with an NVSP message: the first reason that applies.
#[derive(Clone, Copy, Debug, PartialEq, Eq, Error)]
pub enum NvspFault {
    /// Fewer bytes than the 40 of a message.
    #[error("short {have} need {need}")]
    Short { have: u32, need: u32 },
    /// There is no message of this type.
    #[error("unknown {kind}")]
    Unknown { kind: u32 },
}
