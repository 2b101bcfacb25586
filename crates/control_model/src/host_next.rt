//! What a host goes on with at the end of a phase.
use crate::{HostWait, Opening};
use chan_state::ChanState;

/// How a host goes on with the next opening of a phase that ends.
#[derive(Clone, Copy)]
pub struct HostNext {
    /// What it waits for then.
    pub awaits: HostWait,
    /// The channel that it rescinds, if the next one is to be rescinded.
    pub rescinds: Option<Rescind>,
}

/// A channel that a host rescinds.
#[derive(Clone, Copy)]
pub struct Rescind {
    /// Its opening, whose page lists end.
    pub opening: Opening,
    /// How it stands then.
    pub life: ChanState,
}
