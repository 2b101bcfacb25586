//! The workers at the two ends of a channel, the guest's and the host's, each of which asks or serves by the kind of the channel's device.
#![tactic(auto)]

mod both;
mod channel_plan;
mod done;
mod guest_seat;
mod guest_worker;
mod host_seat;
mod host_worker;
mod making;
mod turns;
mod worker;

pub use both::make_both;
pub use channel_plan::ChannelPlan;
pub use done::{Done, GuestDone, HostDone, WorkerDone};
pub use guest_seat::GuestSeat;
pub use guest_worker::GuestWorker;
pub use host_seat::HostSeat;
pub use host_worker::HostWorker;
pub use turns::{pump, run_both};
pub use worker::Worker;
