//! The worker of the end of a channel that asks, for every kind of device.
#![tactic(auto)]

mod came;
mod lists;
mod next;
mod requester;
mod settle;

pub use requester::{Blocked, Requester, RequesterDone};
