//! Fields, layouts and what can be wrong with a layout.

use thiserror::Error;

/// A little-endian field: the byte at which it begins, and how many bytes it has (1, 2, 4 or 8).
#[derive(Clone, Copy, Debug, PartialEq, Eq)]
pub struct Field {
    /// The byte at which it begins, counted from 0.
    pub at: u16,
    /// How many bytes it has.
    pub width: u8,
}

/// One kind of message: how many bytes it has, and its number fields.
#[derive(Clone, Copy)]
pub struct Layout<const N: usize> {
    /// How many bytes a message has at least.
    pub size: u16,
    /// Its fields, in any order.
    pub fields: [Field; N],
}

/// Why a layout is refused. An overlap is told before a field past the end.
#[derive(Clone, Copy, Debug, PartialEq, Eq, Error)]
pub enum LayoutFault {
    /// These two fields share a byte, and no pair before them in order does.
    #[error("fields {first} and {second} overlap")]
    Overlap { first: u16, second: u16 },
    /// No two fields share a byte, and this is the first that ends past the size.
    #[error("field {field} past the end")]
    PastEnd { field: u16 },
}
