//! Control messages, packets, the utility answers and the signal decisions of this library, for callers in C: functions on numbers and byte slices. examples/c/vmbus.h declares them.
#![tactic(auto)]

mod messages;
mod packets;
mod services;
mod signals;
mod write_messages;
mod write_packets;
