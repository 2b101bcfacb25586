//! Parts of guests' and hosts' drivers over the messages and packets alone, as their authors write them. docs/CALLING.md leads to the pages that show each file.
#![tactic(auto)]

mod disk;
mod network;
mod payload;
mod ranges;
mod services;
mod versions;

pub use disk::{answer_in, read_blocks, start_step, write_read};
pub use network::serve_packet;
pub use payload::read_packet;
pub use ranges::ask_by_pages;
pub use services::answer_service;
pub use versions::{answer_contact, lower, offered};
