//! Room of a list of packets.

/// Room for so many packets, of so many words in all.
#[derive(Clone, Copy)]
pub struct Room {
    /// How many packets.
    pub packets: u64,
    /// How many words they have in all, without trailers.
    pub words: u64,
}
