//! What a kind of device says on its channel, in its own steps, requests and replies: definitions, and laws of them.
#![tactic(auto)]

mod buffer_lists;
pub mod laws;
mod protocol;
mod want;
mod wire;

pub use buffer_lists::BufferLists;
pub use protocol::ChannelProtocol;
pub use want::Want;
pub use wire::Wire;
