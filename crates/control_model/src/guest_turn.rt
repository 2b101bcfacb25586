//! What a guest does next.
use crate::{Burst, Change, GuestWait};
use contact::Version;

/// What comes of a message, or of the start of a part, at a guest.
#[derive(Clone, Copy)]
pub struct GuestTurn {
    /// What it waits for then.
    pub awaits: GuestWait,
    /// The version that is agreed on then, if one is.
    pub version: Option<Version>,
    /// What the message does to its channel.
    pub heard: Change,
    /// What the guest's own wish does to a channel, the same or another one, after that.
    pub wished: Change,
    /// What it sends.
    pub burst: Burst,
}
