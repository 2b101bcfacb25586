//! The start-up of a network's channel.

/// A step of the start-up.
#[derive(Clone, Copy, Debug, PartialEq, Eq)]
pub enum NetStep {
    /// A version of the network messages is negotiated.
    Init,
    /// The host is told a version of NDIS. It doesn't answer.
    Version,
    /// The host is told the page list of the receive buffer, by its handle.
    ReceiveList(u32),
    /// And that of the send buffer.
    SendList(u32),
    /// The adapter is initialized, by a Remote NDIS message.
    Initialize,
}
