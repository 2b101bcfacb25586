//! One opening of a channel.

/// A channel that is opened at the start of a phase, and closed or rescinded at its end.
#[derive(Clone, Copy)]
pub struct Opening {
    /// The channel's number.
    pub relid: u32,
    /// Its number among the channels of its device: 0 for the first one, and from 1 on for its
    /// sub-channels.
    pub sub: u16,
    /// The data pages of each of its two rings, of 4,096 bytes.
    pub ring_pages: u32,
    /// The handle of the page list that it is opened on, its rings'.
    pub gpadl: u32,
    /// The number of the list's first page. The others follow it.
    pub first_page: u64,
    /// Whether the host rescinds the channel at the end of the phase. The guest closes it otherwise.
    pub rescinded: bool,
    /// The virtual processor that the channel's interrupts are moved to once all channels of the
    /// phase are open, if they are: only a device's first channel is moved.
    pub vp: Option<u32>,
    /// The port of the service that the guest asks for, where this is its channel: the host offers it
    /// then, and doesn't at the contact.
    pub dialed: Option<u32>,
    /// Whether it is a network's, which has two buffers beside its rings. Their page lists have the two
    /// handles and the pages behind those of the rings' list, the receive buffer's first.
    pub buffers: bool,
}
