//! Where a channel stands.

/// A channel's state, as one side sees it. Linux's `enum vmbus_channel_state`
/// (include/linux/hyperv.h) has the first four.
#[derive(Clone, Copy, Debug, PartialEq, Eq)]
pub enum State {
    /// It was offered.
    Offered,
    /// The guest asked to open it, and has no answer yet.
    Opening,
    /// It is open: packets go.
    Opened,
    /// It is open, and the guest waits for the answer to MODIFYCHANNEL.
    Modifying,
    /// The guest closed it, and its page list is not torn down yet.
    Closing,
    /// It was closed, and may be opened again.
    Closed,
    /// The host took the offer back.
    Rescinded,
    /// The guest gave it back. This is the end.
    Released,
}
