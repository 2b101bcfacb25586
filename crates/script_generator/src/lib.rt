//! A script of many requests, made from two numbers, and the one line that tells what came of it.
#![tactic(auto)]

mod counts;
mod making;

pub use counts::load_line;
pub use making::load_script;
