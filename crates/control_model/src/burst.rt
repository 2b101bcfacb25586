//! What one side sends at a time.
use crate::{Buffer, Moves, Opening};
use contact::Part;
use vmbus_msg::Msg;

/// The messages that a side sends, one after the other, before it listens again.
#[derive(Clone, Copy)]
pub enum Burst {
    /// None.
    Empty,
    /// One message.
    One(Msg),
    /// Two messages.
    Two(Msg, Msg),
    /// Three messages.
    Three(Msg, Msg, Msg),
    /// The page list of a channel that is being opened: GPADL_HEADER and its GPADL_BODY messages.
    PageList(Opening),
    /// The page list of this buffer of an opening: GPADL_HEADER and its GPADL_BODY messages.
    BufferList(Opening, Buffer),
    /// An OFFERCHANNEL for each device, and ALLOFFERS_DELIVERED.
    Offers,
    /// OPENCHANNEL_RESULT, and an OFFERCHANNEL for each sub-channel of the device whose first channel
    /// is opened at this place, while the phase of this part starts.
    Opens(Msg, Option<Part>, usize),
    /// A MODIFYCHANNEL for each of these channels.
    Moves(Moves),
}
