//! Bytes of a bounded number, held in place.
#![tactic(auto)]

mod held;

pub use held::Held;
