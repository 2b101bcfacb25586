//! What a recorded run of the two ends of a channel is: lines that say calls and word steps, when they are a run, and which one is the first that is wrong.
#![tactic(auto)]

mod laws;
mod verdict;
mod what;
mod words;

pub use laws::{fronts_are_runs, one_verdict};
pub use verdict::{Verdict, WrongWhy};
pub use what::{TraceCall, TraceWhat};
pub use words::Words;
