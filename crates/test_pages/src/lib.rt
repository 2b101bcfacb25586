//! Tests of data pages that packets lend: over memory that a peer writes, by turns over one memory, and between two threads.
#![tactic(auto)]

#[cfg(test)]
mod check;
#[cfg(test)]
mod lean_page_tests;
#[cfg(test)]
mod lends;
#[cfg(test)]
mod network_page_tests;
#[cfg(test)]
mod page_seat_tests;
#[cfg(test)]
mod page_tests;
#[cfg(test)]
mod page_told_tests;
