//! Why a disk refuses a command.
ghost use Rattle.std.specs.Prelude.{◌≡◌};
ghost use Rattle.scsi_disk.specs.DiskModel.{check_of, IsSized};
ghost use Rattle.scsi_disk.specs.declared.request.DiskRequest.{DiskRequest};

use crate::DiskReply;

/// Why a disk refuses a command (names as in the SCSI Primary Commands).
#[derive(Clone, Copy, Debug, PartialEq, Eq)]
pub(crate) enum Refusal {
    /// The command isn't built.
    InvalidCode,
    /// A field of the command has a value that isn't served.
    InvalidField,
    /// The blocks end past the disk.
    OutOfRange,
    /// A block can't be read.
    UnrecoveredRead,
    /// As many blocks were written as can be.
    SpaceExhausted,
}

impl Refusal {
    /// Its check: sense key, additional sense code and qualifier.
    pub(crate) fn check(self) -> DiskReply
        ensures value { result ≡ check_of self }
        ensures fits { (q : DiskRequest) → IsSized q result }
    {
        let (key, asc, ascq) = match self {
            Refusal::InvalidCode => (5, 0x20, 0),
            Refusal::InvalidField => (5, 0x24, 0),
            Refusal::OutOfRange => (5, 0x21, 0),
            Refusal::UnrecoveredRead => (3, 0x11, 0),
            Refusal::SpaceExhausted => (7, 0x27, 7),
        };
        DiskReply::Check { key, asc, ascq }
    }
}
