//! Why bytes are no message.

use crate::field_name::FieldName;
use thiserror::Error;

/// Why bytes are no message: the first reason that applies. Lengths are numbers of bytes; one past
/// the greatest `u32` is told as that.
#[derive(Clone, Copy, Debug, PartialEq, Eq, Error)]
pub enum MsgFault {
    /// Fewer bytes than a type and its padding have, or than a message of the type has.
    #[error("short {have} need {need}")]
    Short { have: u32, need: u32 },
    /// There is no message of this type.
    #[error("unknown {kind}")]
    Unknown { kind: u32 },
    /// More bytes than the message has.
    #[error("long {have}")]
    Long { have: u32 },
    /// The header of a page list doesn't name one range of whole pages.
    #[error("field {name} {value}")]
    Field { name: FieldName, value: u64 },
}
