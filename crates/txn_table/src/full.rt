//! The refusal of a request.

use thiserror::Error;

/// As many requests are open as there are ids.
#[derive(Debug, Drop, Error)]
#[error("a request is open under each of the {size} ids")]
pub struct TableFull<R> {
    /// How many ids there are.
    pub size: u32,
    /// The request, given back.
    pub req: R,
}
