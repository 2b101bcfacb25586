//! Key-value exchange: its messages, and the device of a guest, five pools.
#![tactic(auto)]

mod answers;
mod fault;
pub mod laws;
mod machine;
mod message;
mod places;
mod read;
mod text;
mod write;

pub use answers::{answer, read_reply};
pub use fault::KvpFault;
pub use kvp_pool::{Key, Val};
pub use machine::KvpMachine;
pub use message::{Kvp, KvpReply};
pub use read::decode;
pub use write::encode;
