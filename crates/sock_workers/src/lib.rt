//! Both workers of a socket: a guest that sends its input and keeps what comes back, and a host that sends back what it reads.
#![tactic(auto)]

mod both;
mod ended;
mod guest;
mod host;
pub mod laws;
mod port;

pub use both::run_both;
pub use ended::{Ended, Turn};
pub use guest::{GuestDone, SockGuest, packets_for};
pub use host::{HostDone, SockHost};
