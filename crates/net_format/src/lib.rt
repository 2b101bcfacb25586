//! What the packets of a network's channel say: its Remote NDIS messages stand in data pages of the channel. Definitions, and laws of them.
#![tactic(auto)]

pub mod laws;
mod net_step;

pub use net_step::NetStep;
