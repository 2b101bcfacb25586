//! A channel as a guest's control knows it.
use chan_state::ChanState;

/// A channel that the host offered.
#[derive(Clone, Copy)]
pub struct Channel {
    /// Where it stands.
    pub life: ChanState,
    /// The handle of the page list that it set up last, once there is one.
    pub gpadl: Option<u32>,
}
