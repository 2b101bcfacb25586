//! Tests of the channels of a phase: by turns and on two threads each.
#![tactic(auto)]

#[cfg(test)]
mod bus_threads_tests;
#[cfg(test)]
mod check;
#[cfg(test)]
mod only_seat;
