//! The packet of a storage channel.

/// A storage packet of 64 bytes (struct `vstor_packet`).
#[derive(Clone, Copy, Debug, PartialEq, Eq)]
pub struct Vstor {
    /// What is asked, or 1 in an answer.
    pub operation: u32,
    /// 1 asks for a completion.
    pub flags: u32,
    /// Of an answer: 0 is success. A request has 0.
    pub status: u32,
    /// By the operation: an srb, a version, properties or a count.
    pub rest: [u8; 52],
}
