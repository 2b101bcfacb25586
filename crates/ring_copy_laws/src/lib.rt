//! Laws of what an end got, whatever its peer wrote: each packet is the copy that one take made.
#![tactic(auto)]

mod laws;

pub use laws::copies_are_checked;
