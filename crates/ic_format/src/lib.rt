//! What the packets of a utility channel say: heartbeat and shutdown. Definitions, and laws of them.
#![tactic(auto)]

mod ic_step;
pub mod laws;

pub use ic_step::IcStep;
