//! How a worker's turn went, and how the worker ended.
use hv_sock::SockFault;

/// How a worker ended.
#[derive(Clone, Copy, Debug, PartialEq, Eq)]
pub enum Ended {
    /// It ended its own direction and read the end of the other one. Then it said that it sends nothing more.
    Marked,
    /// The other end had said so, and either all that it sent was read, or what is to be sent found no room. Then this end said it too.
    PeerMarked,
    /// What is to be sent or read next lacks room in the worker's lists.
    Room,
    /// A read gave neither data nor the end: it got a packet that is none of a socket's.
    Fault(SockFault),
}

/// How a turn went.
#[derive(Clone, Copy, Debug, PartialEq, Eq)]
pub enum Turn {
    /// It sent or took a packet, woke, or found work as it armed.
    Moved,
    /// The end is asleep, and what is still to be sent waits.
    Idle,
    /// The worker has ended.
    Ended(Ended),
}
