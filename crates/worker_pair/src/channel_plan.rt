//! What the workers of a channel are made for.
use chan_state::Stop;
use contact::DeviceKind;
use device_wire::BufferLists;

/// What the workers of a channel do in a phase, besides the requests that one of them asks.
#[derive(Clone, Copy)]
pub struct ChannelPlan {
    /// The channel's number among the offers.
    pub relid: u32,
    /// The kind of its device.
    pub kind: DeviceKind,
    /// 0 for the primary channel of the device.
    pub sub: u16,
    /// How many channels the device has beside it.
    pub subs: u32,
    /// How many requests are open at most.
    pub window: u32,
    /// How many requests of the script the channel carries in the phase.
    pub count: u32,
    /// The page lists of a network's buffers, which the guest tells.
    pub lists: BufferLists,
    /// Where the end that serves stops, if it does before the end of the phase.
    pub stop: Option<Stop>,
}
