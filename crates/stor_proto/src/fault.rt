//! Why bytes are no storage packet.

use crate::FieldName;
use thiserror::Error;

/// Why bytes are no storage packet: the first reason that applies.
#[derive(Clone, Copy, Debug, PartialEq, Eq, Error)]
pub enum VstorFault {
    /// Fewer bytes than the 64 of a packet.
    #[error("short {have} need {need}")]
    Short { have: u32, need: u32 },
    /// There is no such operation.
    #[error("operation {value}")]
    Operation { value: u32 },
    /// A request has a status that isn't 0.
    #[error("field {name} {value}")]
    Field { name: FieldName, value: u64 },
}
