//! What becomes of a guest's channels.
use crate::{Channel, Moves};

/// What happens to the channels, which have the relids 1, 2 and so on.
#[derive(Clone, Copy)]
pub enum Change {
    /// They stay as they are.
    Same,
    /// One more was offered.
    Offered(Channel),
    /// One of them stands so now.
    Now {
        /// Its number.
        relid: u32,
        /// How it stands.
        channel: Channel,
    },
    /// Each of these is moved to another processor.
    Moved {
        /// The channels.
        moves: Moves,
        /// Whether the host answers that.
        answered: bool,
    },
}
