//! Laws of the single accesses of ends whose data pages go by plans: a channel keeps its rule at each of them.
#![tactic(auto)]

pub mod laws;
