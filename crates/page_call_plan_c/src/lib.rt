//! Data pages by plans, for callers in C. examples/c/vmbus.h declares the calls.
#![tactic(auto)]

mod calls;
