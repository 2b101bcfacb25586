//! What a caller has of a call.

/// The answer to a call, with its place in the history.
#[derive(Drop)]
pub struct Receipt<R> {
    /// The place of the call's entry in the history.
    pub serial: u32,
    /// The machine's reply.
    pub reply: R,
}
