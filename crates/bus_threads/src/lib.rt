//! The channels of a phase: two workers for each, and what they come to.
#![tactic(auto)]

mod channel;
mod close;
mod open;
mod pair;
mod phase;
mod start;

pub use open::open_pair;
pub use pair::{Pair, PairDone, run_pair, serving_seat};
pub use phase::run_phase;
