//! What the crates for callers in C share: the numbers that a refusal tells, and bytes at the front of a buffer.
#![tactic(auto)]

mod fault;
mod front;

pub use fault::VmbusFault;
pub use front::put_front;
