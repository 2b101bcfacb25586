//! The control paths of a guest and of its host: what each sends, what it takes, and what it waits
//! for. Both ends' controls are proved to go by these definitions.
//!
//! Source: `channel_message_table` and the handlers that it names (drivers/hv/channel_mgmt.c), and
//! `vmbus_establish_gpadl`, `__vmbus_open`, `vmbus_send_modifychannel` and `vmbus_close_internal`
//! (drivers/hv/channel.c) of Linux 6.12.
#![tactic(auto)]

mod buffer;
mod burst;
mod change;
mod channel;
mod fault;
mod guest_turn;
mod guest_wait;
mod host_next;
mod host_wait;
mod moves;
mod opening;
mod plan;
mod planning;
mod sending;
mod version;

pub use buffer::Buffer;
pub use burst::Burst;
pub use change::Change;
pub use channel::Channel;
pub use fault::ControlFault;
pub use guest_turn::GuestTurn;
pub use guest_wait::GuestWait;
pub use host_next::{HostNext, Rescind};
pub use host_wait::HostWait;
pub use moves::{Move, Moves};
pub use opening::Opening;
pub use plan::ControlPlan;
pub use sending::{
    buffer_list, connect, messages, offer_service, open_on, release, teardown, teardown_buffer,
    type_of,
};
pub use version::version_below;
