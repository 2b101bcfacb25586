//! Packets of a VMBus ring: a descriptor of two words, ranges where the type has them, and a payload.
#![tactic(auto)]

mod build;
mod desc;
mod fields;
mod kind;
mod lend;
mod loan;
mod ranged;
mod ranges;
mod read;

pub use build::{build_comp, build_inband};
pub use desc::{Desc, PacketFault};
pub use lend::lent;
pub use loan::Lent;
pub use ranged::{build_gpa, build_xfer};
pub use read::parse;
