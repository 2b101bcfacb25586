//! How the lines of a script ended.
ghost use Rattle.std.specs.Prelude.{◌≡◌};

use kvp_ic::KvpReply;
use rndis_msg::Rndis;
use scsi_disk::DiskReply;
use util_ic::IcAnswer;

/// What a device answered.
#[derive(Drop)]
pub enum Reply {
    /// The answer of a utility service.
    Ic(IcAnswer),
    /// The reply of a disk.
    Disk(DiskReply),
    /// The reply of a network's adapter.
    Net {
        /// The status in the completion: 1 is success, 2 failure.
        status: u32,
        /// The message that came back, if one did.
        back: Option<Rndis>,
    },
    /// The reply of a key-value service.
    Kvp(KvpReply),
}

impl Reply {
    /// The same reply. It takes no memory.
    pub fn again(&self) -> Reply
        ensures { result ≡ self.now }
    {
        match self {
            Reply::Ic(answer) => Reply::Ic(*answer),
            Reply::Disk(reply) => Reply::Disk(reply.again()),
            Reply::Net { status, back } => Reply::Net {
                status: *status,
                back: match back {
                    Some(message) => Some(message.again()),
                    None => None,
                },
            },
            Reply::Kvp(reply) => Reply::Kvp(reply.again()),
        }
    }
}

/// How a line that prints ended. A serial is the place of a request in its device's history,
/// from 0 over the whole run.
#[derive(Drop)]
pub enum LineResult {
    /// The guest and its host agreed on a version; the guest tried this many of them.
    Version { tried: u32 },
    /// It was served and completed.
    Done { serial: u32, reply: Reply },
    /// It was served and not completed, for its channel was rescinded.
    RescindedServed { serial: u32 },
    /// It was not served, for its channel was rescinded.
    Unserved,
    /// The interrupts of its device's first channel go to this processor now; the host answered,
    /// as it does from version 5.3 on, or not.
    Modified { vp: u32, answered: bool },
    /// The agreed version, one below 4.1, has no message that moves them.
    Unsupported,
    /// Its device was rescinded in an earlier phase.
    Gone,
    /// Its device was closed in an earlier phase.
    Closed,
}

impl LineResult {
    /// The same outcome. It takes no memory.
    pub fn again(&self) -> LineResult
        ensures { result ≡ self.now }
    {
        match self {
            LineResult::Version { tried } => LineResult::Version { tried: *tried },
            LineResult::Done { serial, reply } => LineResult::Done {
                serial: *serial,
                reply: reply.again(),
            },
            LineResult::RescindedServed { serial } => {
                LineResult::RescindedServed { serial: *serial }
            }
            LineResult::Unserved => LineResult::Unserved,
            LineResult::Modified { vp, answered } => LineResult::Modified {
                vp: *vp,
                answered: *answered,
            },
            LineResult::Unsupported => LineResult::Unsupported,
            LineResult::Gone => LineResult::Gone,
            LineResult::Closed => LineResult::Closed,
        }
    }
}
