//! An end beside a peer that writes anything: the whole of an input, and its text.
#![tactic(auto)]

mod bench;
mod puts;
mod run;

pub use run::run_hostile;
