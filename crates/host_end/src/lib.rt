//! The host's side of the control path.
//!
//! Source: `channel_message_table` and the messages of `drivers/hv/channel_mgmt.c` of Linux 6.12, as
//! their other end.
#![tactic(auto)]

mod answers;
mod connecting;
mod control;
mod ending;
mod hearing;
mod lists;
mod moving;
mod opening;
mod posting;
mod serving;

pub use control::HostControl;
