//! The words of an input's lines, cuts, and numbers in either base. A line that has a byte which doesn't print is in no form; one without words is passed over, and so is a comment.
#![tactic(auto)]

mod cutting;
mod hex;
mod line;
mod value;

pub use cutting::cut;
pub use hex::{hex_16, is_hex_16, number_of_hex_16};
pub use line::words_in;
pub use value::{is_value, value_of};
