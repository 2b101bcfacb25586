//! Tests of the rings: what one end and both ends do, beside answers that were worked out by hand, and each public call once.
#![tactic(auto)]

#[cfg(test)]
mod call_steps_tests;
#[cfg(test)]
mod channel_trace_tests;
#[cfg(test)]
mod check;
#[cfg(test)]
mod ends;
#[cfg(test)]
mod packet;
#[cfg(test)]
mod ring_core_tests;
#[cfg(test)]
mod ring_machine_tests;
#[cfg(test)]
mod ring_pair_laws_tests;
#[cfg(test)]
mod ring_seat_tests;
#[cfg(test)]
mod told_mem_tests;
