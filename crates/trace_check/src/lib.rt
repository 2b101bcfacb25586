//! A checker of one recorded run: it says whether the lines of a trace are a run of the two ends of a channel, and otherwise which line is the first that is wrong, and why.
#![tactic(auto)]

mod begin;
mod checker;
mod condition;
mod fault;
mod feed;
mod follow;
mod lead;
mod read;
mod reading;
mod stepping;
mod text;
mod verdict;
mod watch;
mod watched;

pub use fault::TraceFault;
pub use text::verdict_text;
pub use trace_model::{Verdict, WrongWhy};
pub use verdict::{check, check_lines};
