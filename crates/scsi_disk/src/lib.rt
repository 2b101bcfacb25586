//! A synthetic SCSI disk: blocks of 512 bytes behind commands of 6, 10 and 16 bytes.
#![tactic(auto)]

mod big_endian;
mod chunk;
mod command;
mod disk;
mod inquiry;
mod refusal;
mod reply;
mod request;
mod store;

pub use chunk::Chunk;
pub use command::Command;
pub use disk::Disk;
pub use reply::DiskReply;
pub use request::DiskRequest;
