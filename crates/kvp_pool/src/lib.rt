//! Pools of pairs of UTF-16 texts: finite maps in order of their keys.
#![tactic(auto)]

mod full;
pub mod laws;
mod pool;
mod search;
mod units;

pub use full::PoolFull;
pub use pool::Pool;
pub use units::{Key, Units, Val};
