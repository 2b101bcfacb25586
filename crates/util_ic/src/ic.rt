//! What a utility service is asked, and what it answers.

/// A request to a utility service.
#[derive(Clone, Copy, Debug, PartialEq, Eq)]
pub enum IcAsk {
    /// A heartbeat with its sequence number.
    Beat {
        seq: u64,
    },
    /// A shutdown with its reason, its timeout in seconds and its flags.
    Down {
        reason: u32,
        timeout: u32,
        flags: u32,
    },
}

/// The answer of a utility service.
#[derive(Clone, Copy, Debug, PartialEq, Eq)]
pub struct IcAnswer {
    /// An HRESULT: 0 is success.
    pub status: u32,
    /// The sequence number that a heartbeat's answer carries, else 0.
    pub seq: u64,
}
