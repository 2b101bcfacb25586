//! The text of an end's steps, and a seat that keeps it.
#![tactic(auto)]

mod push;
mod record;
mod recorder;
mod step;

pub use recorder::Recorder;
pub use step::step_line;
