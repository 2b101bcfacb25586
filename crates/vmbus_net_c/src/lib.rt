//! The messages of a network adapter, for callers in C: NVSP and Remote NDIS, read and written. examples/c/vmbus.h declares the calls.
#![tactic(auto)]

mod network;
mod write_nvsp;
mod write_rndis;
