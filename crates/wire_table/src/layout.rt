//! Layouts that were checked, and their fields in bytes.

ghost use Rattle.std.specs.Prelude.{◌≡◌, ◌≢◌, ℕ, ◌+◌, ◌^◌, ◌<◌, ◌≤◌, ◌++◌, length, take, drop, slice_range, true, Some, None, MatchResult};
ghost use Rattle.wire_table.specs.Little.{number_of, bytes_of};
ghost use Rattle.wire_table.specs.Tables.{EachWidth, fault_of, at_of, width_of, end_of, value_in};

use crate::field::Layout;
use crate::{get_at, put_at};

/// A layout in which no two fields share a byte and none ends past the size.
#[derive(Clone, Copy)]
pub struct Checked<const N: usize> {
    /// The layout that was checked.
    pub layout: Layout<N>,
    /// Each width is 1, 2, 4 or 8.
    pub ghost widths: { EachWidth layout.fields },
    /// No two fields share a byte, and none ends past the size.
    pub ghost sound: { fault_of layout.size layout.fields ≡ None },
}

impl<const N: usize> Checked<N> {
    /// The number in field `i` of a message, the lowest byte first.
    pub fn get(&self, bytes: &[u8], i: usize) -> u64
        requires field { i < N }
        requires bytes { self.now.layout.size ≤ length bytes.now }
        ensures value { result ≡ value_in self.now.layout.fields i bytes.now }
        ensures fits { result < 256 ^ width_of self.now.layout.fields i }
    {
        let field = self.layout.fields[i];
        get_at(bytes, usize::from(field.at), usize::from(field.width))
    }

    /// Writes a number that fits into field `i` of a message. Every other byte stays, so every
    /// other field does.
    pub fn put(&self, bytes: &mut [u8], i: usize, v: u64)
        requires field { i < N }
        requires bytes { self.now.layout.size ≤ length bytes.old }
        requires fits { v < 256 ^ width_of self.now.layout.fields i }

        // `get` gives the number.
        ensures value { value_in self.now.layout.fields i bytes.new ≡ v }

        // Every other field is as before.
        ensures others { (j : ℕ) → j < N → j ≢ i
            → value_in self.now.layout.fields j bytes.new ≡ value_in self.now.layout.fields j bytes.old }

        // The bytes before the field are as before, and its own are those of the number.
        ensures front { take (end_of self.now.layout.fields i) bytes.new
            ≡ take (at_of self.now.layout.fields i) bytes.old ++ bytes_of (width_of self.now.layout.fields i) v }

        // The bytes after the field are as before.
        ensures rest { drop (end_of self.now.layout.fields i) bytes.new ≡ drop (end_of self.now.layout.fields i) bytes.old }
    {
        let field = self.layout.fields[i];
        put_at(bytes, usize::from(field.at), usize::from(field.width), v);
    }
}
