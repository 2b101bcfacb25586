//! One end of a channel for a driver that runs for days: it takes the memory of one packet, and what it sent and got is known to contracts alone. In a channel with data
//! pages it has a copy of their words too.
#![tactic(auto)]

mod driver_end;

pub use driver_end::DriverEnd;
pub use ring_core::LeanEnd;
