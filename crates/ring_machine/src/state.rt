//! The whole state of an end, as contracts see it. No value of it is made: a `LinkedList` is a list there.
use crate::machine::EndMachine;
use channel_trace::Event;
use page_kept::Kept;
use std::collections::LinkedList;

/// The machine, the packet that is being sent, the words copied so far, what the end sent, got and did, and its pages.
pub struct EndState {
    /// Its indices, its flags, and the call under way.
    pub machine: EndMachine,
    /// The packet that is being sent.
    pub packet: LinkedList<u64>,
    /// The words copied so far by the take under way.
    pub copied: LinkedList<u64>,
    /// The packets that it sent, in order.
    pub sent: LinkedList<LinkedList<u64>>,
    /// The packets that it got, in order.
    pub got: LinkedList<LinkedList<u64>>,
    /// What it did, the last event first.
    pub past: LinkedList<Event<LinkedList<u64>>>,
    /// What it keeps of its channel's data pages.
    pub pages: Kept,
}
