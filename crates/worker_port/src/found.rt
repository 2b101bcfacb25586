//! What a port's calls found.
ghost use Rattle.std.specs.Prelude.{◌≡◌};
ghost use Rattle.ring_machine.specs.Endings.{refused};
ghost use Rattle.worker_port.specs.Line.{found_of, has_packet, tried_of};

use ring_core::{SendRefusal, Signalled, TakeRefusal};

/// What became of a packet that was to be sent.
#[derive(Clone, Copy)]
pub enum Tried {
    Sent,
    /// The ring has too little room.
    Full,
    /// The end is broken: it loaded an index that breaks the rings' rules, and makes no step any more.
    Broken,
}

/// What a take found.
#[derive(Clone, Copy)]
pub enum Found {
    Packet,
    Nothing,
    /// The end is broken: what it loaded is no packet.
    Broken,
}

// What became of a packet, by the answer of the send.
pub(crate) fn tried_by(answer: Result<Signalled, SendRefusal>) -> Tried
    ensures { result ≡ tried_of answer }
{
    match answer {
        Ok(_) => Tried::Sent,
        Err(SendRefusal::Full { .. }) => Tried::Full,
        Err(_) => Tried::Broken,
    }
}

// Whether a take found a packet.
pub(crate) fn has_packet(found: Found) -> bool
    ensures { result ≡ has_packet found }
{
    match found {
        Found::Packet => true,
        Found::Nothing | Found::Broken => false,
    }
}

// What a take found, by its answer.
pub(crate) fn found_by(answer: Result<(), TakeRefusal>) -> Found
    ensures { result ≡ found_of (refused answer) }
{
    match answer {
        Ok(()) => Found::Packet,
        Err(TakeRefusal::Empty { .. }) => Found::Nothing,
        Err(_) => Found::Broken,
    }
}
