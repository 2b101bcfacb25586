//! Callers that share something between two threads: a device behind a lock, and a mail box. docs/CALLING.md leads to the pages that show them.
#![tactic(auto)]

mod drawing;
mod mail;
mod numbers;

pub use drawing::draw;
pub use mail::{GivesBack, carry_mail, give_back};
pub use numbers::Numbers;
