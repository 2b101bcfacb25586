//! What a line came to.

use std::fmt::{Display, Error, Formatter, Write};
use stor_proto::VstorFault;

/// What a line came to.
#[derive(Clone, Copy)]
pub(crate) enum Came {
    /// The bytes are built, or read and written, as they stand.
    Alike,
    /// The bytes are the answer to the request in the line before.
    Answers,
    /// Other bytes are built, written or answered.
    Differs,
    /// The line names no packet.
    NoPacket,
    /// The bytes are no storage packet.
    Refused(VstorFault),
}

impl Display for Came {
    fn fmt<W: Write>(&self, f: &mut Formatter<W>) -> Result<(), Error> {
        match self {
            Came::Alike => f.write_str("alike"),
            Came::Answers => f.write_str("answers"),
            Came::Differs => f.write_str("differs"),
            Came::NoPacket => f.write_str("no packet"),
            Came::Refused(fault) => write!(f, "{fault}"),
        }
    }
}
