//! What a guest waits for.
use crate::Buffer;
use contact::Version;

/// The next message that a guest's control waits for in a part. Openings count from 0: at the start
/// of a phase in the order in which they are opened, and at its end in the order in which they are
/// closed.
#[derive(Clone, Copy)]
pub enum GuestWait {
    /// None: the part is done, or none has begun.
    Nothing,
    /// VERSION_RESPONSE, to this version.
    Response(Version),
    /// An OFFERCHANNEL for each device, and then ALLOFFERS_DELIVERED.
    Offers,
    /// OFFERCHANNEL, for the sub-channel of this opening.
    SubOffer(usize),
    /// OFFERCHANNEL, for the service that was asked for, whose channel is that of this opening.
    ServiceOffer(usize),
    /// GPADL_CREATED, for the page list of this opening.
    Created(usize),
    /// OPENCHANNEL_RESULT, for the channel of this opening.
    Opened(usize),
    /// GPADL_CREATED, for the page list of this buffer of this opening.
    Listed(usize, Buffer),
    /// MODIFYCHANNEL_RESPONSE, for each channel that is moved, from the opening with this number among
    /// those that are moved on.
    Modified(usize),
    /// GPADL_TORNDOWN, for the page list of this buffer of this opening.
    Unlisted(usize, Buffer),
    /// GPADL_TORNDOWN, for the page list of this opening.
    Torn(usize),
    /// RESCIND_CHANNELOFFER, for the channel of this opening.
    Rescinded(usize),
    /// UNLOAD_RESPONSE.
    Unloaded,
}
