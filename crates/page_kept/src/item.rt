//! A packet with its page words.
use std::collections::LinkedList;

/// A packet, and the page words that it lends or brings back. No value of it is made: a `LinkedList` is a list in contracts.
pub struct Item {
    /// The packet.
    pub packet: LinkedList<u64>,
    /// Its page words.
    pub words: LinkedList<u64>,
}
