//! What a packet's descriptor says, and why words aren't a packet.

use thiserror::Error;

/// A packet's descriptor (Linux 6.12, `include/linux/hyperv.h`, struct vmpacket_descriptor).
#[derive(Clone, Copy, Debug, PartialEq, Eq)]
pub struct Desc {
    /// The type: 6 is in-band data, 7 data using transfer pages, 9 data using GPA direct, 11 a completion
    /// (`VM_PKT_DATA_INBAND`, `VM_PKT_DATA_USING_XFER_PAGES`, `VM_PKT_DATA_USING_GPA_DIRECT`, `VM_PKT_COMP`).
    pub kind: u16,
    /// Where the payload begins, in units of 8 bytes.
    pub offset8: u16,
    /// The length of the packet without its trailer, in units of 8 bytes.
    pub len8: u16,
    /// Bit 0 asks for a completion.
    pub flags: u16,
    /// The transaction's id; 0 is unsolicited. A completion has its request's.
    pub tid: u64,
}

/// Why words aren't a packet.
#[derive(Clone, Copy, Debug, PartialEq, Eq, Error)]
pub enum PacketFault {
    /// The length isn't the number of words.
    #[error("a length of {len8} words for {have}")]
    Length {
        /// The length that the descriptor gives, in words.
        len8: u16,
        /// The number of words.
        have: u64,
    },
    /// The payload begins in the descriptor, or past the end.
    #[error("payload at word {offset8} of {len8}")]
    Offset {
        /// Where the payload begins, in words.
        offset8: u16,
        /// The length that the descriptor gives, in words.
        len8: u16,
    },
    /// The ranges of a packet of type 7 or 9 go past the payload's beginning.
    #[error("{count} ranges in {have} words before the payload")]
    Ranges {
        /// The number of ranges; 0 where the payload begins before it.
        count: u32,
        /// The words between descriptor and payload.
        have: u64,
    },
}
