//! A test of both ends of a socket on atomic words, up to the end of their channel.
#![tactic(auto)]

#[cfg(test)]
mod ends;
#[cfg(test)]
mod seat_tests;
