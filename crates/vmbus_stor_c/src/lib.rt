//! Storage packets, for callers in C: read and written, for a guest's side and a host's. examples/c/vmbus.h declares the calls.
#![tactic(auto)]

mod guest;
mod host;
mod opening;
mod storage;
