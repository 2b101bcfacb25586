//! How a worker's turn went, and how the worker ended.

use ring_core::Why;

/// How a worker ended.
#[derive(Clone, Copy, Debug, PartialEq, Eq)]
pub enum Ended {
    /// It had settled or served all of its plan, and said that it sends nothing more.
    Marked,
    /// The other end had said so, and all that it sent was taken. Then this end said it too.
    PeerMarked,
    /// The next packet to send or to take lacks spare room: so many packets and words are left of the list that it would grow. And so many calls are
    /// left at the seat, 0 without a seat.
    Room { packets: u64, words: u64, left: u32 },
    /// The end refused what it loaded, and makes no step any more: this is why.
    Broken { why: Why },
}

/// How a turn went.
#[derive(Clone, Copy, Debug, PartialEq, Eq)]
pub enum Turn {
    /// It sent or took a packet, woke, or found work as it armed.
    Moved,
    /// The end is asleep, and what is still to be sent waits.
    Idle,
    /// The worker has ended.
    Ended(Ended),
}
