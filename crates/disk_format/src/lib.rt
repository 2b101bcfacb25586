//! What the packets of a disk's channel say: its data stands in data pages of the channel. Definitions, and laws of them.
#![tactic(auto)]

mod disk_step;
pub mod laws;

pub use disk_step::DiskStep;
