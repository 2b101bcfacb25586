//! Page lists: cut into control messages by the one side, assembled by the other.
//!
//! Source: `create_gpadl_header` of Linux 6.12 (drivers/hv/channel.c).
#![tactic(auto)]

mod assembler;
mod building;
mod cut;
mod fault;
mod law;
mod page_list;
mod progress;

pub use assembler::Assembler;
pub use building::pages_of;
pub use cut::{body, header, to_messages};
pub use fault::GpadlFault;
pub use law::{assembled, one_cut};
pub use page_list::PageList;
pub use progress::Progress;
