//! A control that serves a part over its ends of two queues, for a thread of its own.
#![tactic(auto)]

mod control;
mod part_done;
mod part_left;
mod serving;

pub use control::Control;
pub use part_done::PartDone;
pub use part_left::PartLeft;
pub use serving::{Serving, Turn, serve};
