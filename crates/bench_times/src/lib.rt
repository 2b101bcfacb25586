//! What times a ring on two threads, over any end that makes the calls of a `Port`; and the figures of all parts.
#![tactic(auto)]

mod figures;
mod ping;
mod rest;
mod window;

pub use figures::tell;
