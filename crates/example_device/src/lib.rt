//! A device of one's own behind the workers of a channel, as its author writes it. docs/CALLING.md shows each file.
#![tactic(auto)]

mod register;
mod register_protocol;
mod register_run;
mod register_seat;
mod register_shared;
#[cfg(test)]
mod tests;

pub use register::Register;
pub use register_protocol::RegisterProtocol;
pub use register_run::{Stored, store_all};
pub use register_seat::RegisterSeat;
pub use register_shared::{Served, serve_register};
