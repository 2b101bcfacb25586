//! Record layouts as checked tables of little-endian fields, and the bytes that stand for them.
//!
//! A kind of message is a constant `Layout`. `Layout::check` tests it once, so that reading and
//! writing its fields needs no further test. The macro `fields!` reads or writes the fields of a
//! table in a body. `specs/Rows.antt` has the grammar of messages as rows, numbers and raw bytes.
#![tactic(auto)]

mod check;
mod field;
mod fields;
mod layout;
mod little;

pub use field::{Field, Layout, LayoutFault};
pub use layout::Checked;
pub use little::{array_at, get_at, number, put_at, put_bytes, spell};
