//! Tests of the network device: its packets against those of Linux's own structs, its replies, and each public call once.
#![tactic(auto)]

#[cfg(test)]
mod check;
#[cfg(test)]
mod hex;
#[cfg(test)]
mod net_dev_tests;
#[cfg(test)]
mod rndis_msg_tests;
