//! The start-up of a key-value channel.

/// A step of the start-up.
#[derive(Clone, Copy, Debug, PartialEq, Eq)]
pub enum KvpStep {
    /// The versions of the framework and of the service's messages are negotiated.
    Negotiate,
}
