//! The end that keeps each packet, as what times it asks of an end.
#![tactic(auto)]

mod pair;
mod port;

pub use pair::roomy;
pub use port::EndPort;
