//! Tests of the workers of any device: both ends of a channel on two threads and by turns.
#![tactic(auto)]

#[cfg(test)]
mod channel_model_tests;
#[cfg(test)]
mod channel_tests;
#[cfg(test)]
mod check;
#[cfg(test)]
mod echo;
#[cfg(test)]
mod message_tests;
pub mod swap;
#[cfg(test)]
mod swap_tests;
