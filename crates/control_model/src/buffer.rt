//! The buffers of a network.

/// A buffer of 64 pages that a network's two ends share. Each has a page list of its own, beside the one
/// of the channel's rings.
#[derive(Clone, Copy)]
pub enum Buffer {
    /// The receive buffer, for messages to the guest.
    Receive,
    /// The send buffer, for messages to the host.
    Send,
}
