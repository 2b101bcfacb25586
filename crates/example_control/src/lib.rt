//! The control path without a script, as its authors write it: over the bytes of its messages, and by a plan of one's own. docs/CALLING.md leads to the page that shows it.
#![tactic(auto)]

mod message_bytes;
mod own_plan;

pub use message_bytes::{Refused, guest_takes, host_takes, next_bytes};
pub use own_plan::{both_ends, plan_of_disk};
