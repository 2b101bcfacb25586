//! The end that keeps no packet, as what times it asks of an end.
#![tactic(auto)]

mod port;

pub use port::DriverPort;
