//! The checked fields.

use thiserror::Error;

/// A field that places a message's buffer.
#[derive(Clone, Copy, Debug, PartialEq, Eq, Error)]
pub enum FieldName {
    /// The data offset of a packet, or the info offset.
    #[error("offset")]
    Offset,
    /// The data length of a packet, or the info length.
    #[error("length")]
    Length,
}
