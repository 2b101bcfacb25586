//! What the words of a channel and its two ends have to do with each other, and laws of both ends over one memory that nobody else changes.
#![tactic(auto)]

pub mod laws;
