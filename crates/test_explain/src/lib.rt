//! Tests of what is said of a script that is refused.
#![tactic(auto)]

#[cfg(test)]
mod explain_tests;
