//! Tests of both controls: a whole stay on the bus of each by itself, with refusals, and of both over the queues between them.
#![tactic(auto)]

#[cfg(test)]
mod check;
#[cfg(test)]
mod guest_end_tests;
#[cfg(test)]
mod host_end_tests;
#[cfg(test)]
mod made;
#[cfg(test)]
mod net_tests;
#[cfg(test)]
mod parts;
#[cfg(test)]
mod path_tests;
