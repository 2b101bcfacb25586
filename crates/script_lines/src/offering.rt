//! A device, as one line offers it.

use crate::DeviceSpec;

/// What a line offers, before it is held against the lines before it. A value out of range is none.
#[derive(Clone, Copy)]
pub enum Offering {
    /// A disk.
    Disk {
        /// How many blocks it has.
        blocks: Option<u64>,
        /// How many channels it has beside the first one, where that is a number of 64 bits.
        subs: Option<u64>,
    },
    /// A device that has no number.
    Plain(DeviceSpec),
}
