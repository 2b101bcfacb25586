//! A channel that a phase opens.

/// A channel that a phase opens.
#[derive(Clone, Copy, Debug, PartialEq, Eq)]
pub struct Opening {
    /// Its relid. The first channels of the devices have the relids from 1 on, in order of offer.
    pub relid: u32,
    /// Its device. Devices count from 0, in order of offer.
    pub device: u32,
    /// Its number among the channels of its device.
    pub sub: u32,
}
