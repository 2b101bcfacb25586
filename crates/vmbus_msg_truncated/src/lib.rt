//! What the first bytes of a control message are read as, where the others didn't come.
//!
//! Each message tells how long it is, by its type or by a page list's range, so that a front of it is too short. A page list's body doesn't: one that ends between
//! two frames is a body with the frames before. `specs/Fronts.antt` has both.
#![tactic(auto)]

mod laws;
mod prefix;

pub use laws::{fronts_are_fewer_frames, fronts_are_short};
pub use prefix::read_prefix;
