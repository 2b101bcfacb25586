//! The page lists of a network's buffers.

/// The handles of the page lists of a network's receive buffer and of its send buffer, which the guest tells the host in the start-up of the channel. Both are 0 where a channel
/// has no such buffers.
#[derive(Clone, Copy, Debug, PartialEq, Eq)]
pub struct BufferLists {
    /// The receive buffer's.
    pub receive: u32,
    /// The send buffer's.
    pub send: u32,
}

impl BufferLists {
    /// Of a channel without such buffers.
    pub const NONE: BufferLists = BufferLists {
        receive: 0,
        send: 0,
    };
}
