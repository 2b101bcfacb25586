//! The connection of a socket: its control path around its channel.
#![tactic(auto)]

mod connection;

pub use connection::{Connection, connect};
