//! The start-up of a disk's channel.

/// A step of the start-up. Linux asks for version 6.0 and then for 5.1 where one is refused; between the two ends of this program none is, so the steps are these.
#[derive(Clone, Copy, Debug, PartialEq, Eq)]
pub enum DiskStep {
    /// It begins.
    Begin,
    /// Version 6.2 is asked for.
    Version,
    /// The properties are asked for.
    Properties,
    /// It ends.
    End,
    /// So many sub-channels are asked for.
    SubChannels(u16),
}
