//! How packets are written.

/// How a packet is written.
#[derive(Clone, Copy, Debug, PartialEq, Eq)]
pub enum Form {
    /// In words: phase, relid and side, then type, id and flags, the bytes behind the descriptor, and those of the page words that went along.
    Words,
    /// As text2pcap reads it: its place, 000000, and each byte in two digits.
    Dump,
}
