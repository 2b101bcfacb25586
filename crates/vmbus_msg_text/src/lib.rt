//! Lines of hexadecimal digits, printed as the control messages that they are.
#![tactic(auto)]

mod field;
mod input;
mod layout;
mod line;
mod message;
mod push;

pub use input::decode_text;
pub use message::push_fault;
