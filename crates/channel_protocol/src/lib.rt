//! What the workers of a channel ask of its kind: what its packets say, and a place at its device. The workers are written once, over both traits.
#![tactic(auto)]

mod device;
pub mod laws;
mod protocol;

pub use device::Device;
pub use protocol::{Protocol, Written};
