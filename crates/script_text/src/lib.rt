//! The texts of a script: bytes as lines and words, what a word writes, and numbers and bytes as text.
#![tactic(auto)]

mod cut;
mod fault;
mod hex_digits;
mod name;
mod number;
mod run;
mod text;
mod version;

pub use cut::{first_line, first_word};
pub use fault::{ParseFault, ScriptFault, Why6};
pub use hex_digits::{
    address_of, are_bytes, byte_of, count_bytes, hex_2, hex_8, is_address, is_byte, is_oid, oid_of,
    put_bytes,
};
pub use name::{Name, is_name};
pub use number::{is_decimal, number_of, within};
pub use text::{push_decimal, push_runs};
pub use version::{is_version, version_of};
