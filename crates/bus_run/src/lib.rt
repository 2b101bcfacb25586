//! The run of a script, phase by phase: its channels are opened, run all at once, and are closed.
#![tactic(auto)]

mod bads;
mod channels;
mod closing;
mod due;
mod opening;
mod phase;
mod phase_work;
mod runner;
mod settings;

pub use phase_work::PhaseWork;
pub use runner::{Runner, ScriptRun};
