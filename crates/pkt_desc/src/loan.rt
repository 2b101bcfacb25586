//! A page that is lent.

/// A page of the channel that a packet lends.
#[derive(Clone, Copy, Debug, PartialEq, Eq)]
pub struct Lent {
    /// The page's number in the channel: below 64 it is the guest's, from 64 to 127 the host's.
    pub page: u32,
    /// How many bytes of it are lent, from its first byte on: 1 to 4,096.
    pub bytes: u32,
}
