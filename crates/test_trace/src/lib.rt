//! Tests of the checker of recorded runs: runs and wrong lines, runs of random calls, refused inputs, words and lines, and recorded steps.
#![tactic(auto)]

#[cfg(test)]
mod check;
#[cfg(test)]
mod line_tests;
#[cfg(test)]
mod random;
#[cfg(test)]
mod random_tests;
#[cfg(test)]
mod recorder_tests;
#[cfg(test)]
mod turns;
#[cfg(test)]
mod verdict_tests;
