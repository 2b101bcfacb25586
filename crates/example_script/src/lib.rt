//! The whole program, called over bytes in memory. docs/CALLING.md shows it.
#![tactic(auto)]

mod script;
#[cfg(test)]
mod tests;

pub use script::report_of;
