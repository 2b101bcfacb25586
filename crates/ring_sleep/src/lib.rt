//! Sleeping until the peer raises the signal, at any seat on which a thread can wait.
#![tactic(auto)]

mod parks;
mod waiting;

pub use parks::Parks;
pub use waiting::sleep;
