//! What the two ends of a channel did: events, the one run of both ends that they belong to, and laws of such runs.
#![tactic(auto)]

mod event;
mod kind;
pub mod laws;
mod past;

pub use event::Event;
pub use past::Past;
