//! How far a page list has come.
use crate::PageList;

/// What a message brought about.
#[derive(Drop)]
pub enum Progress {
    /// Frames are missing.
    More {
        /// How many came so far.
        have: u32,
        /// How many pages the whole list has.
        want: u32,
    },
    /// The list is whole.
    Done(PageList),
}
