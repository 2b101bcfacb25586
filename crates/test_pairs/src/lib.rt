//! Tests of the workers of a kind of device: a pair by turns, by one call, and on two threads.
#![tactic(auto)]

#[cfg(test)]
mod check;
#[cfg(test)]
mod only_seat;
#[cfg(test)]
mod pump_tests;
#[cfg(test)]
mod short_plan_tests;
#[cfg(test)]
mod worker_pair_tests;
