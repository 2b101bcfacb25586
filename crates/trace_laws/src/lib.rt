//! What each run of a trace keeps, and that the text of a step is read as that step.
#![tactic(auto)]

mod laws;

pub use laws::{runs_keep_the_rule, texts_are_read};
