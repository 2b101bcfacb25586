//! What the packets of a key-value channel say. Definitions, and laws of them.
#![tactic(auto)]

mod kvp_step;
pub mod laws;

pub use kvp_step::KvpStep;
