//! A block that can't be read.

/// A place of a device.
#[derive(Clone, Copy, PartialEq, Eq, Hash)]
pub struct BadPlace {
    pub device: u32,
    pub lba: u64,
}
