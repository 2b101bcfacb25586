//! The refusal of an id.

use thiserror::Error;

/// No request is open under this id.
#[derive(Clone, Copy, Debug, PartialEq, Eq, Error)]
#[error("no request is open under id {tid}")]
pub struct UnknownTid {
    /// The id, as it came.
    pub tid: u64,
}
