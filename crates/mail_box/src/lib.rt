//! The queue of control messages between the two sides, in one thread or between two.
#![tactic(auto)]

mod closed;
mod ends;
mod full;
mod mail_box;
mod rule;
mod shared;

pub use closed::ClosedQueue;
pub use ends::{FetchEnd, PostEnd};
pub use full::MailFull;
pub use mail_box::MailBox;
pub use rule::{Log, Mailing, Named, Nothing};
