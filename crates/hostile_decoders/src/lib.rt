//! What a table of ids, an assembler of page lists, a packet's descriptor and a storage packet make of what a peer hands over, and the text of it.
#![tactic(auto)]

mod kind;
mod packet;
mod pages;
mod parts;
mod text;
mod vstor;

pub use parts::Parts;
