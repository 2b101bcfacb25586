//! The utility services, heartbeat and shutdown: their messages, and the guest's answers.
#![tactic(auto)]

mod answer;
mod beat;
mod down;
mod ic;
mod read;
mod request;
mod row;
mod tables;
mod version;

pub use answer::serve;
pub use beat::BeatMachine;
pub use down::DownMachine;
pub use ic::{IcAnswer, IcAsk};
pub use read::{read_answer, read_ask};
pub use request::{ask, negotiate};
