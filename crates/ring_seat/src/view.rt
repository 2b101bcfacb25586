//! What a seat at a channel's table knows. No value of it is made.
use ring_core::Told;

/// What is told of both ends, of one end, or of none any more.
pub enum View {
    Both(Told, Told),
    One(Told),
    Spent,
}
