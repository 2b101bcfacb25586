//! A field of a message as it is written.

/// A number, the lowest byte first, or bytes as they are.
#[derive(Clone, Copy)]
pub enum Piece<'a> {
    U8(u8),
    U16(u16),
    U32(u32),
    U64(u64),
    Raw(&'a [u8]),
}
