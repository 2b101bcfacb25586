//! What an end did between two moments: whole calls of its machine, and what their steps answered.
#![tactic(auto)]

mod laws;

pub use laws::calls_follow;
