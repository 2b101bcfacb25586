//! Tests of the control path of a socket: of each control by itself, with refusals, and of both over the
//! queues between them.
#![tactic(auto)]

#[cfg(test)]
mod check;
#[cfg(test)]
mod sock_tests;
