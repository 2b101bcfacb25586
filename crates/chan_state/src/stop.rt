//! Where a host stops.

/// Where a host stops to serve a channel in a phase.
#[derive(Clone, Copy, Debug, PartialEq, Eq)]
pub struct Stop {
    /// How many requests of the phase are served, or all where there are fewer.
    pub after: u32,
    /// Whether nothing goes back for the last of these.
    pub held: bool,
}
