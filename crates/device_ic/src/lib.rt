//! A utility service on its channel: how its packets are written and read.
#![tactic(auto)]

mod can_ask;
mod ic_wire;
mod services;

pub use can_ask::{is_beat_ask, is_down_ask};
pub use ic_wire::IcWire;
