//! The refusal of a message.

use thiserror::Error;

/// Why a page list's header or body is refused.
#[derive(Clone, Copy, Debug, PartialEq, Eq, Error)]
pub enum GpadlFault {
    /// A body brings more frames than are missing.
    #[error("count {have} want {want}")]
    Count {
        /// How many are missing.
        want: u32,
        /// How many it brings.
        have: u32,
    },
    /// The list with this handle isn't the one that is being built.
    #[error("handle {id}")]
    Handle {
        /// The message's handle.
        id: u32,
    },
    /// A list with this handle is being built, or is live.
    #[error("repeat {id}")]
    Repeat {
        /// The message's handle.
        id: u32,
    },
    /// The range isn't one of whole pages.
    #[error("range {value}")]
    Range {
        /// Its offset where that isn't 0, and otherwise its byte count.
        value: u32,
    },
    /// There is no memory for the list.
    #[error("memory")]
    Memory,
}
