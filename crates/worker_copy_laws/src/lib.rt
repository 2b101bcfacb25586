//! Laws of the workers of a channel beside any peer: what an end knows is copies that it tested, and its device is asked only what these say.
#![tactic(auto)]

mod laws;

pub use laws::{knows_copies, serves_copies};
