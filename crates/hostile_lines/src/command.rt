//! What a line asks.
use crate::bytes::Bytes;
use ring_machine::{Place, Ring};

/// A call of the end.
#[derive(Clone, Copy)]
pub enum EndCall {
    /// A send of an in-band packet of so many words, all 0 behind the first.
    Send(u32),
    /// A take.
    Take,
    /// A commit of all that was taken.
    Commit,
    /// An arm, which may wait for room in bytes besides packets.
    Arm(Option<u32>),
    /// A look for the end's signal.
    Poll,
}

/// What a line asks.
#[derive(Drop)]
pub enum Command {
    /// A call of the end.
    Call(EndCall),
    /// The cell of a ring at this byte offset.
    Show(Ring, u32),
    /// A new table of so many ids.
    Table(u32),
    /// An id for a request.
    Accept,
    /// The end of the request of this id.
    Complete(u64),
    /// What an assembler of page lists makes of a control message.
    Gpadl(Bytes),
    /// What a packet says, whose words are these bytes: two words at least.
    Packet(Bytes),
    /// What a storage packet says.
    Vstor(Bytes),
}

/// A line that asks something, and its number.
#[derive(Drop)]
pub struct CommandLine {
    /// The line, counted from 1.
    pub number: u32,
    /// What it asks.
    pub command: Command,
}

/// A word that is set before all steps.
#[derive(Clone, Copy)]
pub struct Put {
    /// Which word.
    pub place: Place,
    /// Its value.
    pub value: u64,
}
