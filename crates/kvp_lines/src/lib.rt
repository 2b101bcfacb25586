//! The lines of a script that ask a key-value service: what they say, how their rows are told, and how a reply is written.
#![tactic(auto)]

mod form;
mod pair;
mod reply;
mod row;

pub use form::{PairForm, PairWord};
pub use reply::push_pair;
pub use row::operation_row;
