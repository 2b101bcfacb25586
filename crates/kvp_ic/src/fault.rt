//! Why a message is refused.

ghost use Rattle.std.specs.Prelude.{◌≡◌};
ghost use Rattle.kvp_ic.specs.Machine.{told};

use crate::KvpReply;
use thiserror::Error;

/// Why a message is no request of a key-value device: the first of these that applies.
#[derive(Clone, Copy, Debug, PartialEq, Eq, Error)]
pub enum KvpFault {
    /// It has fewer bytes than what it asks for.
    #[error("{have} bytes of {need}")]
    Short { have: u32, need: u32 },
    /// Its operation is above 3.
    #[error("operation {value}")]
    Operation { value: u8 },
    /// Its pool is above 4.
    #[error("pool {value}")]
    Pool { value: u8 },
    /// A text's size is odd, or less than its last unit, or more than its field: the key's before the value's.
    #[error("size {value}")]
    Size { value: u32 },
    /// A unit before a text's last is 0, or the last isn't: its byte in the key, or 512 more than its byte in the value.
    #[error("text at {at}")]
    Text { at: u32 },
}

impl KvpFault {
    /// The answer to a message that is refused: status 0x80070057 (ERROR_INVALID_PARAMETER), whatever the fault.
    pub fn reply(self) -> KvpReply
        ensures { result ≡ told 0x8007_0057 }
    {
        KvpReply::of_status(0x8007_0057)
    }
}
