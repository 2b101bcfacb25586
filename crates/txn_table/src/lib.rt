//! Open requests, each under an id of its own.
#![tactic(auto)]

mod free;
mod full;
mod table;
mod unknown;

pub use full::TableFull;
pub use table::TxnTable;
pub use unknown::UnknownTid;
