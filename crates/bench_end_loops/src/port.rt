//! What a measurement asks of an end of a channel.
use std::alloc::{AllocError, Global};
use std::sync::Wait;

/// How a send went.
#[derive(Clone, Copy)]
pub enum Sent {
    Quiet,
    Raised,
    Full,
    Refused,
}

/// How a take went, with its commit.
#[derive(Clone, Copy)]
pub enum Took {
    Quiet,
    Raised,
    Empty,
    Refused,
}

/// An end on atomic words. Each call tests by itself that it may be made, and is refused where it may not: the tests belong to what is measured.
pub trait Port {
    /// Both ends of a new channel whose rings have 16 pages, the guest's first, with room for so many packets of so many words each way.
    fn pair(alloc: Global, words: u64, count: u64) -> Result<(Self, Self), AllocError>;

    /// Sends a packet.
    fn send(&mut self, p: &[u64]) -> Sent;

    /// Takes a packet and gives its room back.
    fn take(&mut self) -> Took;

    /// Arms the signal for packets: whether the end is asleep.
    fn arm(&mut self) -> bool;

    /// Takes the signal of an end that is asleep: whether it is awake.
    fn poll(&mut self) -> bool;

    /// Parks the thread while the signal is down.
    fn park<R: Wait>(&self, rt: &R);
}
