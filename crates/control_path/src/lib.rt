//! The control path of a guest and its host: two queues, and parts that each run the host's side in a thread and the guest's on the caller's.
#![tactic(auto)]

mod ends;
mod laws;
mod over;
mod part_side;
mod path;
mod run;
mod start;
mod want;

pub use ends::{Ends, settle};
pub use laws::{buffers_are_told, start_is_said};
pub use over::PathOver;
pub use part_side::PartSide;
pub use path::ControlPath;
pub use run::run_part;
pub use want::PathWant;
