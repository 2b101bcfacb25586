//! A key-value service on its channel: how its packets are written and read.
#![tactic(auto)]

mod can_ask;
mod kvp_wire;
mod pairs;

pub use can_ask::is_pair_ask;
pub use kvp_wire::KvpWire;
