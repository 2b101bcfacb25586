//! A disk on its channel: how its packets are written and read.
#![tactic(auto)]

mod can_ask;
mod disk_answer;
mod disk_wire;
mod disks;
mod page_disks;

pub use can_ask::is_disk_ask;
pub use disk_answer::DiskAnswer;
pub use disk_wire::DiskWire;
