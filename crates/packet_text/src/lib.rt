//! The packets of a run, as text: a line each, in words, or for text2pcap.
#![tactic(auto)]

mod channel;
mod form;
mod packet;

pub use channel::packets_text;
pub use form::Form;
