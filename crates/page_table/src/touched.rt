//! The id whose packet went last.
use crate::balance::Balance;

/// An id, and its requests against their completions.
#[derive(Clone, Copy)]
pub(crate) struct Touched {
    pub(crate) tid: u64,
    pub(crate) balance: Balance,
}
