//! How long the report of a run is at most.
#![tactic(auto)]

mod laws;

pub use laws::few_runs_back;
