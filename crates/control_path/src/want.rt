//! Why a control path doesn't go on.

use crate::Ends;
use guest_end::GuestControl;
use host_end::HostControl;
use std::alloc::AllocError;

/// A side wanted memory in a part.
#[derive(Drop)]
pub struct PathWant {
    /// Both controls with their faults, and what passed through the queues, which are ended.
    pub ends: Ends<GuestControl, HostControl>,
}

impl From<PathWant> for AllocError {
    fn from(_want: PathWant) -> AllocError {
        AllocError
    }
}
