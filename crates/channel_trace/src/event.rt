//! What an end of a channel did. No value of it is made: only contracts and proofs speak of events.

/// One thing that an end did with a packet of type `P`.
pub enum Event<P> {
    /// It sent this packet: the store of its write index.
    Sent(P),
    /// It got this packet: the last load of its take.
    Got(P),
    /// It found its incoming ring empty: the load of the write index in a take.
    Empty,
    /// It said that it sends nothing more: the store of its mark.
    Marked,
    /// It saw the other end's mark.
    Saw,
}
