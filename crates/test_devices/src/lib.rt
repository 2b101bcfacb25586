//! Tests of the disk, the services and the protocol of a network: their packets against those of Linux's own structs, their replies, and each public call once.
#![tactic(auto)]

#[cfg(test)]
mod check;
#[cfg(test)]
mod device_protocols_tests;
#[cfg(test)]
mod hex;
#[cfg(test)]
mod hist_lock_tests;
#[cfg(test)]
mod net_protocol_tests;
#[cfg(test)]
mod said;
#[cfg(test)]
mod scsi_disk_tests;
#[cfg(test)]
mod stor_proto_tests;
#[cfg(test)]
mod util_ic_tests;
