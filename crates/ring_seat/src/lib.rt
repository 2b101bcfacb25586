//! The two ends of a channel on atomic words, under a rule that each step of either end keeps.
#![tactic(auto)]

mod channel;
pub mod laws;
mod rule;
mod settled;
mod table_seat;
mod view;

pub use channel::{ChannelMem, GuestEnd, HostEnd};
pub use settled::{Settled, finish};
pub use table_seat::{TableSeat, lawful};
pub use view::View;
