//! The lines of a script, read from its bytes; the first wrong one, and why it is refused.
#![tactic(auto)]

mod asked;
mod bad_place;
mod disk_ask;
mod draft;
mod law;
mod line;
mod message;
mod offering;
mod reading;
mod refusal;
mod request;
mod row;
mod said;
mod script;
mod shape;

pub use disk_ask::DiskAsk;
pub use law::first_wrong_line;
pub use line::{Ask, DeviceSpec, Line, What};
pub use reading::parse;
pub use request::request_of;
pub use script::Script;
pub use shape::{Shape, shape_of};
