//! What a host waits for.
use crate::Buffer;

/// The next message that a host's control waits for in a part. Openings count from 0: at the start of
/// a phase in the order in which they are opened, and at its end in the order in which they are
/// closed.
#[derive(Clone, Copy)]
pub enum HostWait {
    /// None: the part is done, or none has begun.
    Nothing,
    /// INITIATE_CONTACT.
    Contact,
    /// REQUESTOFFERS.
    Request,
    /// TL_CONNECT_REQUEST, for the service whose channel is that of this opening.
    Connect(usize),
    /// GPADL_HEADER and its bodies, for the page list of this opening.
    List(usize),
    /// OPENCHANNEL, for the channel of this opening.
    Open(usize),
    /// GPADL_HEADER and its bodies, for the page list of this buffer of this opening.
    Fill(usize, Buffer),
    /// MODIFYCHANNEL, for the channel of the opening with this number among those that are moved.
    Modify(usize),
    /// GPADL_TEARDOWN, for the page list of this buffer of this opening.
    Empty(usize, Buffer),
    /// CLOSECHANNEL, for the channel of this opening.
    Close(usize),
    /// GPADL_TEARDOWN, for the page list of this opening.
    Teardown(usize),
    /// RELID_RELEASED, for the channel of this opening.
    Release(usize),
    /// UNLOAD.
    Unload,
}
