//! How a phase ended a device.

/// How a phase ended a device. No later phase opens it.
#[derive(Clone, Copy, Debug, PartialEq, Eq)]
pub enum Ending {
    /// It was rescinded, and maybe closed too.
    Rescinded,
    /// It was closed, and not rescinded.
    Closed,
}
