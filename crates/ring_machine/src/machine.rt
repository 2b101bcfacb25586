//! What an end keeps of its own, as plain data.
use crate::place::Side;

/// The next step of the call under way. Each is one load, one store or one exchange.
#[derive(Clone, Copy)]
pub enum Stage {
    /// No call is under way.
    Idle,
    /// The end refused what it loaded, and makes no step any more.
    Stopped,
    SendRead,
    SendCell,
    SendWrite,
    SendMask,
    SendLook,
    SendRaise,
    TakeWrite,
    TakeFirst,
    TakeCell,
    CommitRead,
    CommitFeature,
    CommitPending,
    CommitWrite,
    CommitRaise,
    ArmPending,
    ArmMask,
    ArmWrite,
    ArmRead,
    ArmMark,
    ArmUndoMask,
    ArmUndoPending,
    PollSignal,
    PollMask,
    PollPending,
    MarkStore,
    MarkRaise,
    PeerMark,
}

/// How the last call ended, without the numbers that `Last` gives.
#[derive(Clone, Copy)]
pub enum Ending {
    Fresh,
    SentQuiet,
    SentRaised,
    Full,
    BadPeer,
    Took,
    Empty,
    BadIndex,
    BadLength,
    BadOffset,
    CommittedQuiet,
    CommittedRaised,
    FellAsleep,
    FoundWork,
    NoSignal,
    Woke,
    Marked,
    PeerMarkDown,
    PeerMarkUp,
}

/// One end as plain data. Indices and lengths count cells of 8 bytes.
#[derive(Clone, Copy)]
pub struct EndMachine {
    /// The cells of a ring.
    pub cells: u32,
    /// The private write index of the outgoing ring.
    pub write: u32,
    /// The private read index of the incoming ring.
    pub read: u32,
    /// The read index that was last committed.
    pub start: u32,
    /// The write index before the last send, or in a commit the committed index before it.
    pub old: u32,
    /// The index that the call loaded first.
    pub seen: u32,
    /// The words of the packet under way.
    pub len: u32,
    /// The cells of the packet that were stored or loaded so far.
    pub done: u32,
    /// The low half of the value that the call stopped at, or in a commit the pending size that was loaded.
    pub value: u32,
    /// The room in bytes that the last arm waits for, or 0.
    pub want: u32,
    /// The free cells that the last send which had too little room found.
    pub room: u32,
    /// The words of the packet of the last call that took one, or that had too little room for it.
    pub words: u32,
    /// Whose end it is.
    pub side: Side,
    /// The next step.
    pub stage: Stage,
    /// How the last call ended.
    pub ended: Ending,
    /// The mask that was last stored isn't 0.
    pub masked: bool,
    /// The end fell asleep, and hasn't taken its signal since.
    pub asleep: bool,
    /// The end said that it sends nothing more.
    pub marked: bool,
    /// The peer's mark was loaded as up.
    pub peer_marked: bool,
    /// A take answered Empty after that.
    pub drained: bool,
    /// The arm under way, or the last one, loaded the peer's mark as up.
    pub saw: bool,
}
