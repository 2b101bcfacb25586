//! Kinds of events. One that has a packet takes it from beside it.

/// Which event it is.
pub(crate) enum Kind {
    Sent,
    Got,
    Empty,
    Marked,
    Saw,
}
