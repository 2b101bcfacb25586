//! A page list.

/// A whole page list.
#[derive(Drop)]
pub struct PageList {
    /// The channel that it was made for.
    pub relid: u32,
    /// Its handle.
    pub handle: u32,
    /// The page frame numbers, in order.
    pub pages: Vec<u64>,
}
