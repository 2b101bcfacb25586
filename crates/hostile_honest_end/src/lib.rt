//! A guest's end over words that a peer changes as it likes: what each call comes to, and its text.
#![tactic(auto)]

mod packet;
mod tested;
mod text;

pub use tested::TestedEnd;
