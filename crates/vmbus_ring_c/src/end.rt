//! An end as plain numbers.

/// One end of a channel. C reads it, keeps it and copies it, and changes it by the calls of this library alone: each of them tests the numbers.
#[repr(C)]
#[derive(Clone, Copy)]
pub struct VmbusEnd {
    /// The cells of a ring, of 8 bytes each. Indices and lengths count cells.
    pub cells: u32,
    /// The private write index of the outgoing ring.
    pub write: u32,
    /// The private read index of the incoming ring.
    pub read: u32,
    /// The read index that was last committed.
    pub start: u32,
    pub before: u32,
    pub seen: u32,
    /// The words of the packet under way.
    pub len: u32,
    /// The cells of the packet that were stored or loaded so far.
    pub done: u32,
    /// The low half of the value that the call stopped at.
    pub value: u32,
    /// The room in bytes that the last arm waits for, or 0.
    pub want: u32,
    /// The free cells that the last send which had too little room found.
    pub room: u32,
    /// The words of the packet of the last call that took one, or that had too little room for it.
    pub words: u32,
    /// Whose end it is: 0 the guest's, 1 the host's.
    pub side: u32,
    /// The next step: 0 none, 1 none any more, since the end refused what it loaded.
    pub stage: u32,
    /// How the last call ended.
    pub ended: u32,
    /// Each of the six flags counts as set where it isn't 0.
    pub masked: u32,
    /// It fell asleep, and hasn't taken its signal since.
    pub asleep: u32,
    /// It said that it sends nothing more.
    pub marked: u32,
    pub peer_marked: u32,
    pub drained: u32,
    /// The last arm saw the peer's mark.
    pub saw: u32,
}
