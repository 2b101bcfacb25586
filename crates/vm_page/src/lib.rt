//! Pages, the 64-bit words of bytes, and ranges cut into parts of pages.
#![tactic(auto)]

mod cut;
mod span;
mod words;

pub use cut::spans;
pub use span::{PAGE, Span, SpanFault};
pub use words::{bytes_of, word_of};
