//! What became of a packet that is to be sent.

/// What became of a packet that is to be sent.
#[derive(Clone, Copy)]
pub(crate) enum Given {
    Sent,
    /// The ring has no room.
    Full,
    /// The list of what was sent has no room: this is what it has.
    Lacks { packets: u64, words: u64 },
    /// The end is broken.
    Broken,
}
