//! The channels that a phase opens.
use bus_script::Ask;
use chan_state::Stop;
use phase_plan::Opening;

/// What the script orders of a channel that a phase opens.
#[derive(Drop)]
pub struct ChannelOrder {
    /// The channel.
    pub opening: Opening,
    /// Its requests.
    pub asks: Vec<Ask>,
    /// Where its service stops, if it does.
    pub stop: Option<Stop>,
}
