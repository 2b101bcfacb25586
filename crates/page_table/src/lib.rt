//! The data pages of a channel, as one end knows them: what it has to do with each, and its copy of their words.
#![tactic(auto)]

mod balance;
mod ids;
mod loan;
mod owners;
mod table;
mod touched;

pub use balance::Balance;
pub use loan::Loan;
pub use table::{COMPLETION, PageTable};
