//! Plans for one end of a channel, for callers in C, who make every load, copy and store themselves. examples/c/vmbus.h declares them.
#![tactic(auto)]

mod calls;
