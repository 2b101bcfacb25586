//! How the calls of an end answer.

use thiserror::Error;

/// Whether a call raised the peer's signal.
#[derive(Clone, Copy, PartialEq, Eq)]
pub enum Signalled {
    /// The signal was raised.
    Raised,
    /// It wasn't.
    Quiet,
}

/// How an `arm` ended.
#[derive(Clone, Copy, PartialEq, Eq)]
pub enum Armed {
    /// Each look found nothing: the end is asleep.
    Asleep,
    /// A look found packets, room or the peer's mark.
    Work,
}

/// What is wrong with a packet that a take met.
#[derive(Clone, Copy, Debug, PartialEq, Eq, Error)]
pub enum Bad {
    /// The write index is no multiple of 8 below the ring's size.
    #[error("write index {value} is no multiple of 8 in the ring")]
    Index { value: u32 },
    /// The length is below 2 words, or with its trailer above the bytes that aren't taken yet.
    #[error("length of {len8} words where {avail} bytes wait")]
    Length { len8: u16, avail: u32 },
    /// The offset of the payload is below 2 words, or above the length.
    #[error("payload at word {offset8} of {len8}")]
    Offset { offset8: u16, len8: u16 },
}

/// Why an end stopped.
#[derive(Clone, Copy, Debug, PartialEq, Eq, Error)]
pub enum Why {
    /// A send loaded a read index that is no multiple of 8 below the ring's size.
    #[error("read index {index} is no multiple of 8 in the ring")]
    BadPeer { index: u32 },
    /// A take met a packet in no form.
    #[error("malformed packet: {0}")]
    Malformed(Bad),
}

/// Whether an end can make calls.
#[derive(Clone, Copy, PartialEq, Eq)]
pub enum Mode {
    /// It can begin a call.
    Awake,
    /// Asleep, or in the call that wakes it.
    Asleep,
    /// It said that it sends nothing more.
    Marked,
    /// It refused what it loaded, and makes no step any more.
    Stopped { why: Why },
}

/// The private indices of an end in bytes, and the read index that it last committed.
#[derive(Clone, Copy, PartialEq, Eq)]
pub struct Indices {
    /// The write index of the ring that it fills.
    pub write: u32,
    /// The read index of the ring that it empties.
    pub read: u32,
    /// The read index that it last committed.
    pub start: u32,
}

/// How the last command of an end ended.
#[derive(Clone, Copy, PartialEq, Eq)]
pub enum Last {
    /// There was none.
    Fresh,
    Sent(Signalled),
    /// The free bytes that the loaded read index leaves, and those that the packet needs with its trailer.
    Full { free: u32, need: u32 },
    Took { words: u32 },
    Empty { at: u32 },
    Broke { why: Why },
    Committed(Signalled),
    Armed(Armed),
    /// Whether the signal was up.
    Polled(bool),
    Marked,
    /// Whether the peer's mark was up.
    PeerMark(bool),
}

/// Why a packet wasn't sent.
#[derive(Clone, Copy, Debug, PartialEq, Eq, Error)]
pub enum SendRefusal {
    /// The ring has too little room now: the free bytes, and those that the packet needs with its trailer.
    #[error("ring full: {free} bytes free, {need} needed")]
    Full { free: u32, need: u32 },
    /// The peer's read index is no multiple of 8 below the ring's size.
    #[error("read index {index} is no multiple of 8 in the ring")]
    BadPeer { index: u32 },
    /// The end refused before.
    #[error("stopped before: {why}")]
    Stopped { why: Why },
}

/// Why no packet was taken.
#[derive(Clone, Copy, Debug, PartialEq, Eq, Error)]
pub enum TakeRefusal {
    /// The ring holds no packet past this index.
    #[error("ring empty at {at}")]
    Empty { at: u32 },
    #[error("malformed packet: {0}")]
    Malformed(Bad),
    /// The end refused before.
    #[error("stopped before: {why}")]
    Stopped { why: Why },
}
