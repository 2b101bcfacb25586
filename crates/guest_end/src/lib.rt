//! The guest's end of the bus: its side of the control path.
//!
//! Source: `vmbus_negotiate_version` (drivers/hv/connection.c), `vmbus_request_offers`, the handlers
//! of `channel_message_table` (drivers/hv/channel_mgmt.c), `__vmbus_open` and `vmbus_close_internal`
//! (drivers/hv/channel.c) of Linux 6.12.
#![tactic(auto)]

mod control;
mod creating;
mod moving;
mod offering;
mod opening;
mod proposing;
mod rescinding;
mod serving;
mod tearing;
mod turns;

pub use control::GuestControl;
