//! The end machine of this library, for callers in C: a plain structure, whose steps C makes itself. examples/c/vmbus.h declares it.
#![tactic(auto)]

mod calls;
mod end;
mod line;
mod machine;
mod numbers;
mod sound;
mod step;
