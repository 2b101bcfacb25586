//! The pages of an end by the ids of its requests: which of them it may lend, without a look at what was sent.
#![tactic(auto)]

pub mod laws;
