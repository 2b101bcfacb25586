//! What one line asks of a device.

use crate::disk_ask::DiskAsk;
use kvp_ic::Kvp;
use rndis_msg::Rndis;

/// A request, before it is held against the lines before it. A value out of range is none.
#[derive(Drop)]
pub enum Asked {
    /// A heartbeat, with its sequence number.
    Beat(Option<u64>),
    /// A shutdown, with its flags.
    Down(Option<u32>),
    /// A command for a disk.
    Command(DiskAsk),
    /// A message for a network's adapter, or none where its bytes are too few or too many.
    Message(Option<Rndis>),
    /// A request about pairs of a key-value service, or none where its pool, its place or a text is out of range.
    Pair(Option<Kvp>),
}
