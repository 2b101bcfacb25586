//! The lines of an input that says what a peer writes, and when, and which calls an end makes beside it: what each line says, and the first reason against it.
#![tactic(auto)]

mod bytes;
mod command;
mod digits;
mod fault;
mod hostile;
mod law;
mod order;
mod place;
mod reading;
mod row;
mod said;

pub use bytes::Bytes;
pub use command::{Command, CommandLine, EndCall, Put};
pub use hostile::Hostile;
pub use law::first_wrong_line;
pub use order::in_step_order;
pub use reading::parse_hostile;
