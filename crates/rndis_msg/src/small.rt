//! The buffer of a message.
use inline_bytes::Held;

/// At most 1,514 bytes, held in place: one Ethernet frame, or what a query gives or a set takes.
pub type Small = Held<1514>;
