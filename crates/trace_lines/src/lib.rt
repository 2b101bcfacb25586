//! The lines of a trace: what each one says, and the first reason against it.
#![tactic(auto)]

mod fault;
mod law;
mod numbers;
mod operation;
mod place;
mod row;
mod said;

pub use fault::read_line;
pub use law::first_wrong_line;
pub use said::Said;
