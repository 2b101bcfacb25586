//! What an end has to do with a page.

/// What an end has to do with a page of its channel.
#[derive(Clone, Copy)]
pub enum Owner {
    /// It is the page's home, and has it.
    Has,
    /// It is the page's home, and has lent its first words by a packet with this id.
    Lent {
        /// The packet's id.
        tid: u64,
        /// How many words are lent.
        words: u32,
    },
    /// It isn't the page's home, and holds its first words by a packet with this id.
    Held {
        /// The packet's id.
        tid: u64,
        /// How many words are lent.
        words: u32,
    },
    /// It isn't the page's home, and doesn't hold it.
    Away,
}
