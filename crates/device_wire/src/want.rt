//! What the end that asks has to ask.

/// What is asked on a channel: a step of the start-up, or a request to the device. No value of it is made: contracts name what is asked so.
#[derive(Drop)]
pub enum Want<S, Q> {
    /// A step of the start-up.
    Step(S),
    /// A request to the device.
    Request(Q),
}
