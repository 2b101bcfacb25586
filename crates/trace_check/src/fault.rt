//! Why an input has no verdict.
use thiserror::Error;

/// Why an input has no verdict.
#[derive(Clone, Copy, Debug, PartialEq, Eq, Error)]
pub enum TraceFault {
    /// It is no trace.
    #[error("trace line {line}: reason {why}")]
    Form {
        /// The first wrong line, counted from 1; 0 is the input as a whole.
        line: u32,
        /// The first reason against it: 1 `Form`, 4 `Range`, 5 `Limit` or 6 `Order`.
        why: u8,
    },
    /// Want of memory.
    #[error("want of memory")]
    Memory,
}
