//! What a side does about an event.

/// What is to be done now.
#[derive(Clone, Copy, Debug, PartialEq, Eq)]
pub enum Action {
    /// Nothing.
    Nothing,
    /// Send OPENCHANNEL.
    SendOpen,
    /// Send OPENCHANNEL_RESULT.
    SendResult,
    /// Send MODIFYCHANNEL.
    SendModify,
    /// Send MODIFYCHANNEL_RESPONSE.
    SendModified,
    /// Send CLOSECHANNEL and GPADL_TEARDOWN.
    SendClose,
    /// Send GPADL_TORNDOWN.
    SendTorndown,
    /// Send RESCIND_CHANNELOFFER.
    SendRescind,
    /// Send RELID_RELEASED.
    SendRelease,
    /// Begin to use the rings.
    StartRings,
    /// End the use of the rings.
    EndRings,
    /// Settle the requests that are open.
    Settle,
}
