//! Tests of an end beside a peer that writes anything, and of the parts beside it.
#![tactic(auto)]

#[cfg(test)]
mod check;
#[cfg(test)]
mod input_tests;
#[cfg(test)]
mod output;
#[cfg(test)]
mod run_tests;
