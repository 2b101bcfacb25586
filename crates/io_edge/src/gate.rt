//! What a worker calls before each script request.

use crate::Side;

/// A watcher of the requests of a phase. A worker calls it before each script request that it
/// sends or serves.
pub trait Gate: Sync {
    /// `number` counts from 1 on the channel `relid` in that phase, at the end `side`.
    fn pass(&self, side: Side, relid: u32, number: u32);
}

/// The gate that does nothing.
#[derive(Clone, Copy, Debug, PartialEq, Eq)]
pub struct NoGate;

impl Gate for NoGate {
    fn pass(&self, _side: Side, _relid: u32, _number: u32) {}
}
