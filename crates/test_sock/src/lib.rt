//! Tests of sockets over a channel, beside packets that were worked out by hand.
#![tactic(auto)]

#[cfg(test)]
mod check;
#[cfg(test)]
mod pair_tests;
#[cfg(test)]
mod told_tests;
