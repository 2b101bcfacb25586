//! The two ends of a channel.

/// One end of a channel.
#[derive(Clone, Copy, Debug, PartialEq, Eq)]
pub enum Side {
    /// The end that sends requests.
    Guest,
    /// The end that serves them.
    Host,
}
