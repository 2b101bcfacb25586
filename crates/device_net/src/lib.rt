//! A network on its channel: how its packets are written and read.
#![tactic(auto)]

mod can_ask;
mod net_wire;
mod nets;
mod page_nets;

pub use can_ask::is_net_ask;
pub use net_wire::NetWire;
pub use nets::write_done;
pub use page_nets::write_net_message;
