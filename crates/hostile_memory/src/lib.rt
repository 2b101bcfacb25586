//! A channel's memory whose words anybody may write at any moment: an end over it, and a hand that writes.
#![tactic(auto)]

mod open_mem;
mod open_seat;
mod rule;
mod scribbler;

pub use open_mem::{OpenEnd, OpenMem};
pub use open_seat::OpenSeat;
pub use rule::OpenView;
pub use scribbler::Scribbler;
