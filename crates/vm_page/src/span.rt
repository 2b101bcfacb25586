//! A page's size, and parts of pages.

use thiserror::Error;

/// The bytes of a page (Linux 6.12, `include/linux/hyperv.h`, `HV_HYP_PAGE_SIZE`).
pub const PAGE: usize = 4096;

/// A part of one page.
#[derive(Clone, Copy, Debug, PartialEq, Eq)]
pub struct Span {
    /// The page's frame number.
    pub page: u64,
    /// The byte of the page at which the part begins.
    pub offset: u32,
    /// The part's length in bytes.
    pub len: u32,
}

/// Why a range isn't cut.
#[derive(Clone, Copy, Debug, PartialEq, Eq, Error)]
pub enum SpanFault {
    /// The offset isn't in the first page.
    #[error("offset {value} isn't in the first page")]
    Offset {
        /// The offset in bytes.
        value: u32,
    },
    /// The range touches another number of pages than it was given.
    #[error("{have} pages for a range of {want}")]
    Pages {
        /// The pages that the range touches.
        want: u64,
        /// The pages that were given.
        have: u64,
    },
}
