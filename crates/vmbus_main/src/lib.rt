//! The bus from bytes to bytes: a script is read, run, and reported.
#![tactic(auto)]

mod answer;
mod call;
mod command;
mod hostile;
mod laws;
mod outcome;
mod run;
mod sock;
mod trace;

pub use call::vmbus;
pub use laws::opened_is_carried;
pub use outcome::{Controls, Outcome};
