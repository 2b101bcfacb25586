//! What a read gives.

/// What a read gives.
#[derive(Clone, Copy, Debug, PartialEq, Eq)]
pub enum Got {
    /// So many bytes, 1 to 2,048, at the front of the buffer.
    Bytes(usize),
    /// The peer sends nothing more.
    End,
}
