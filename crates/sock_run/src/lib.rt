//! The run of a socket: one channel carries the input to the host and back.
#![tactic(auto)]

mod close;
mod pair;
mod run;
mod start;

pub use run::{SockRun, run_sock};
