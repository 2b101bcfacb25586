//! Tests of an end on memory that anybody may write.
#![tactic(auto)]

#[cfg(test)]
mod beside_tests;
#[cfg(test)]
mod check;
#[cfg(test)]
mod opened;
#[cfg(test)]
mod told_tests;
#[cfg(test)]
mod worker_tests;
#[cfg(test)]
mod written_tests;
