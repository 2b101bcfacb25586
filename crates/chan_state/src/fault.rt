//! The refusal of an event.

use crate::{Event, State};
use thiserror::Error;

/// The event has no place in this state.
#[derive(Clone, Copy, Debug, PartialEq, Eq, Error)]
#[error("{event:?} has no place in {state:?}")]
pub struct StateFault {
    /// The channel's state, which stays.
    pub state: State,
    /// The event, as it came.
    pub event: Event,
}
