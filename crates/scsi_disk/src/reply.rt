//! What a disk answers.
ghost use Rattle.std.specs.Prelude.{◌≡◌, ◌<◌};
ghost use Rattle.std.specs.List.{AllByRecursion};
ghost use Rattle.scsi_disk.specs.declared.reply.DiskReply.TheVariants.{Good};

use crate::Chunk;

/// A disk's answer to one request.
#[derive(Drop)]
pub enum DiskReply {
    /// The command was done, and these bytes come back.
    Good(Chunk),
    /// The command was refused, and the disk is as it was.
    Check {
        /// The sense key.
        key: u8,
        /// The additional sense code.
        asc: u8,
        /// The qualifier of the additional sense code.
        ascq: u8,
    },
}

impl DiskReply {
    /// The answer that gives these bytes.
    pub(crate) fn good(back: Chunk) -> DiskReply
        ensures value { result ≡ Good back }
        ensures fits { AllByRecursion (λ b. b < 256) back }
    {
        let bytes = back.bytes();
        // For the proof: the numbers of a slice that is read are known to fit their type.
        let _len = bytes.len();
        DiskReply::Good(back)
    }

    /// The same answer. It takes no memory.
    pub fn again(&self) -> DiskReply
        ensures { result ≡ self.now }
    {
        // Each arm returns by itself, so that no chunk is moved through the value of the `match`.
        match self {
            DiskReply::Good(chunk) => {
                return DiskReply::Good(chunk.again());
            }
            DiskReply::Check { key, asc, ascq } => {
                return DiskReply::Check {
                    key: *key,
                    asc: *asc,
                    ascq: *ascq,
                };
            }
        }
    }
}
