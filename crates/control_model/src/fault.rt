//! The refusal of a control message.
use chan_state::StateFault;
use contact::OfferFault;
use gpadl::GpadlFault;
use thiserror::Error;

/// Why a side refuses a control message. It changes nothing then.
#[derive(Clone, Copy, Debug, PartialEq, Eq, Error)]
pub enum ControlFault {
    /// The channel's life has no place for it.
    #[error("state: {0}")]
    State(StateFault),
    /// Its page list is refused, or there is none with its handle.
    #[error("gpadl: {0}")]
    Gpadl(GpadlFault),
    /// No channel has its relid.
    #[error("relid {value}")]
    Relid {
        /// The message's relid.
        value: u32,
    },
    /// It offers a channel of an unknown class.
    #[error("offer: {0}")]
    Offer(OfferFault),
    /// This side never takes a message of its type.
    #[error("unasked {kind}")]
    Unasked {
        /// The message's type.
        kind: u32,
    },
    /// There is no memory for it.
    #[error("memory")]
    Memory,
}
