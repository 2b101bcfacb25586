//! Parts of programs that call this library, as their authors write them. docs/CALLING.md shows each file.
#![tactic(auto)]

mod atomic_words;
mod driver;
mod lending;
mod pages;
mod requests;
mod rescind;
mod ring;
mod rndis;
mod seat;
mod srb;
#[cfg(test)]
mod tests;
mod words;

pub use atomic_words::AtomicWords;
pub use driver::{is_free, pass_one};
pub use lending::lend_word;
pub use pages::{share, take_piece};
pub use requests::settle;
pub use rescind::release;
pub use ring::{send_one, take_one};
pub use rndis::answer_keepalive;
pub use seat::SharedSeat;
pub use srb::serve_srb;
pub use words::Words;
