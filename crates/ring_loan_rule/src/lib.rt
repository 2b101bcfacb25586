//! The rule of the data pages that packets lend: which end has a page, which holds it, and what stands in it, whatever the two ends send, take, store and load.
#![tactic(auto)]

pub mod laws;
