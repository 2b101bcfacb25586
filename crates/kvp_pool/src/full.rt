//! The refusal of a pair.

use thiserror::Error;

/// The pool has 256 pairs, and none of them has the key.
#[derive(Clone, Copy, Debug, PartialEq, Eq, Error)]
#[error("the pool is full")]
pub struct PoolFull;
