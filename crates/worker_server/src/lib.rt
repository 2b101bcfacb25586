//! The worker of the end of a channel that serves, for every kind of device.
#![tactic(auto)]

mod lists;
mod owed;
mod own;
mod put;
mod responder;
mod server;

pub use server::{Server, ServerDone};
