//! The checked fields.

use thiserror::Error;

/// A field of a storage packet that has to hold more than its width says.
#[derive(Clone, Copy, Debug, PartialEq, Eq, Error)]
pub enum FieldName {
    #[error("status")]
    Status,
}
