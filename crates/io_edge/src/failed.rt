//! The one fault of a source or a sink.

use thiserror::Error;

/// A read or a write that failed. The object that failed has counted it.
#[derive(Clone, Copy, Debug, PartialEq, Eq, Error)]
#[error("a read or a write failed")]
pub struct Failed;
