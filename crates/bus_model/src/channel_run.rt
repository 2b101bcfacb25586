//! What one channel carried in one phase.
use ring_seat::Settled;

/// The packets of a channel that was opened in a phase. Phases and devices count from 0.
#[derive(Drop)]
pub struct ChannelRun {
    pub phase: u32,
    /// The channel's relid: channels are offered from relid 1 on.
    pub relid: u32,
    /// The device, in order of offer.
    pub device: u32,
    /// What both ends sent and got.
    pub settled: Settled,
}
