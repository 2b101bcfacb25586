//! A caller of a channel's two ends, each on a thread of its own.
#![tactic(auto)]

mod two_threads;

pub use two_threads::carry;
