//! Why a script is refused, for its author: the wrong line, a mark under the word that is at fault, the row of the table of lines that it nearly is, and the earlier line that it repeats.
#![tactic(auto)]

mod explanation;
mod form;
mod mark;
mod place;
mod row;

pub use explanation::{Explanation, explain};
