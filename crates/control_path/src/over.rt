//! A control path that has ended.

use guest_end::GuestControl;
use host_end::HostControl;
use mail_box::ClosedQueue;

/// Both controls behind the farewell, and what passed through the queues between them.
#[derive(Drop)]
pub struct PathOver {
    /// The guest's control.
    pub guest: GuestControl,
    /// The host's control.
    pub host: HostControl,
    /// What passed from the guest to the host.
    pub to_host: ClosedQueue,
    /// What passed from the host to the guest.
    pub to_guest: ClosedQueue,
}
