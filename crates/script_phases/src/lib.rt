//! The phases of a script, and the channels that each of them opens: definitions, and laws of them.
#![tactic(auto)]

pub mod laws;
