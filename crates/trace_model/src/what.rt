//! What a line of a trace says.
use crate::words::Words;
use ring_machine::{Op, Side};

/// A call of an end.
#[derive(Drop)]
pub enum TraceCall {
    /// A send of a packet of these words.
    Send(Words),
    /// A take.
    Take,
    /// A commit of all that was taken.
    Commit,
    /// An arm, which may wait for room in bytes besides packets.
    Arm(Option<u64>),
    /// A look for the end's signal, `poll_signal`.
    Poll,
    /// The end says that it sends nothing more.
    Mark,
    /// A look for the peer's mark, `peer_mark`.
    PeerMark,
}

/// An end begins a call; or it makes a step that answered this: the value that it loaded or exchanged, and 0 where it stored or raised.
#[derive(Drop)]
pub enum TraceWhat {
    /// This end begins this call.
    Call(Side, TraceCall),
    /// This end makes this step, which answered so.
    Step(Side, Op, u64),
}
