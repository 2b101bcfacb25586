//! Tests of the top call on worked inputs: what it writes, what it refuses, faults of its source and sink, and one report whatever the threads' order.
#![tactic(auto)]

#[cfg(test)]
mod call;
#[cfg(test)]
mod check;
#[cfg(test)]
mod fault_tests;
#[cfg(test)]
mod hold;
#[cfg(test)]
mod load_tests;
#[cfg(test)]
mod modify_tests;
#[cfg(test)]
mod network_tests;
#[cfg(test)]
mod pair_tests;
#[cfg(test)]
mod rescind_tests;
#[cfg(test)]
mod sock_tests;
#[cfg(test)]
mod sub_channel_tests;
#[cfg(test)]
mod thread_tests;
#[cfg(test)]
mod vmbus_main_tests;
#[cfg(test)]
mod window_tests;
