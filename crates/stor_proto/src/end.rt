//! How a request of the disk ended.

/// How an srb ended, as its completion says.
#[derive(Clone, Copy, Debug, PartialEq, Eq)]
pub enum SrbEnd {
    /// The disk did it.
    Done {
        /// How many bytes moved, by data_transfer_length.
        moved: u64,
    },
    /// The disk refused it, with this sense.
    Refused {
        /// The sense key.
        key: u8,
        /// The additional sense code.
        asc: u8,
        /// The qualifier of the additional sense code.
        ascq: u8,
    },
}
