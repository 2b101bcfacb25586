//! Why a read gives nothing.
use ring_core::TakeRefusal;
use thiserror::Error;

/// Why a read gives neither bytes nor the end of its direction, in the order in which these are looked for.
#[derive(Clone, Copy, Debug, PartialEq, Eq, Error)]
pub enum SockFault {
    /// The end of the direction was read before.
    #[error("read past the end of the stream")]
    Ended,
    /// No packet was taken.
    #[error("{0}")]
    Take(TakeRefusal),
    /// The payload is shorter than a header of 8 bytes.
    #[error("payload of {have} bytes")]
    Short {
        /// The bytes of the payload.
        have: u32,
    },
    /// The type isn't 1.
    #[error("packet of type {value}")]
    Kind {
        /// The type.
        value: u32,
    },
    /// More data than 2,048 bytes, or a payload of other words than the header and the data fill.
    #[error("{value} bytes of data in a payload of {have}")]
    Size {
        /// The bytes of data that the header names.
        value: u32,
        /// The bytes of the payload.
        have: u32,
    },
}
