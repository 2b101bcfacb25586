//! Why bytes are no message.

use crate::FieldName;
use thiserror::Error;

/// Why bytes don't begin with a message: the first reason that applies.
#[derive(Clone, Copy, Debug, PartialEq, Eq, Error)]
pub enum RndisFault {
    /// Fewer bytes than a type and a length, fewer than the length says, or a length below the fixed
    /// part of the message: how many there are, or are said to be, and how many are needed.
    #[error("short {have} need {need}")]
    Short { have: u32, need: u32 },
    /// There is no message of this type, `kind`.
    #[error("unknown {kind}")]
    Unknown { kind: u32 },
    /// A message without a buffer has a length, `have` bytes, above its fixed part.
    #[error("long {have}")]
    Long { have: u32 },
    /// The buffer begins in the fixed part (its offset and the value of it), ends past the message, or is longer
    /// than a frame (its length and the value of it, in bytes).
    #[error("field {name} {value}")]
    Field { name: FieldName, value: u64 },
}
