//! What happens to a channel.

/// A wish of this side, or a message that came from the other.
#[derive(Clone, Copy, Debug, PartialEq, Eq)]
pub enum Event {
    /// This side wants it open.
    WantOpen,
    /// This side wants its interrupts on another virtual processor.
    WantModify {
        /// The processor.
        vp: u32,
        /// Whether the host answers, as it does from version 5.3 on.
        answered: bool,
    },
    /// This side wants it closed.
    WantClose,
    /// This side wants to give it back.
    WantRelease,
    /// This side wants to take its offer back.
    WantRescind,
    /// OPENCHANNEL came.
    OpenSeen,
    /// OPENCHANNEL_RESULT came.
    ResultSeen {
        /// 0 where the channel is open now.
        status: u32,
    },
    /// MODIFYCHANNEL came.
    ModifySeen {
        /// The virtual processor that it names.
        vp: u32,
        /// Whether it is answered, as it is from version 5.3 on.
        answered: bool,
    },
    /// MODIFYCHANNEL_RESPONSE came.
    ModifiedSeen,
    /// CLOSECHANNEL came.
    CloseSeen,
    /// GPADL_TEARDOWN came.
    TeardownSeen,
    /// GPADL_TORNDOWN came.
    TorndownSeen,
    /// RESCIND_CHANNELOFFER came.
    RescindSeen,
    /// RELID_RELEASED came.
    ReleaseSeen,
}
