//! Laws of ends whose data pages go by plans: what is proved of the states of ends with data pages holds of them.
#![tactic(auto)]

pub mod laws;
