//! The page frame numbers of one message.

ghost use Rattle.std.specs.Prelude.{◌≡◌, ℕ, ◌<◌, ◌≤◌, ◌++◌, List, [], ◌∷◌, length, slice_get, slice_index, IsTrue, ◌↔◌};

use std::marker::Model;

/// At most 28 page frame numbers. Contracts see the list of them.
#[derive(Clone, Copy)]
pub struct Frames {
    len: usize,
    items: [u64; 28],
}

impl Model for Frames {
    ghost use Rattle.std.specs.Prelude.{List, ℕ};

    ghost Value = { List ℕ };

    // It names the fields, so it stands below `Value`.
    ghost use Rattle.vmbus_msg.specs.FrameList.{Holds, list_in, fields_of, fields_again};

    ghost view = { list_in };

    ghost invariant = { Holds };

    ghost inverse = { fields_of };

    ghost inverse_ok = { fields_again };
}

impl Frames {
    /// How many there may be.
    pub const MOST: usize = 28;

    /// No numbers.
    pub fn new() -> Frames
        ensures { result ≡ [] }
    {
        Frames {
            len: 0,
            items: [0; 28],
        }
    }

    /// How many there are.
    pub fn len(&self) -> usize
        ensures value { result ≡ length self.now }
        ensures most { result ≤ 28 }
    {
        self.len
    }

    /// Whether there are none.
    pub fn is_empty(&self) -> bool
        ensures { IsTrue result ↔ (self.now ≡ []) }
    {
        self.len == 0
    }

    /// Whether no more fit.
    pub fn is_full(&self) -> bool
        ensures { IsTrue result ↔ (length self.now ≡ 28) }
    {
        self.len == 28
    }

    /// Adds a number at the end.
    pub fn push(&mut self, frame: u64)
        requires { length self.old < 28 }
        ensures { self.new ≡ self.old ++ frame ∷ [] }
    {
        self.items[self.len] = frame;
        self.len += 1;
    }

    /// Number `i`, counted from 0.
    pub fn get(&self, i: usize) -> u64
        requires { i < length self.now }
        ensures { result ≡ slice_index self.now i }
    {
        self.as_slice()[i]
    }

    /// All numbers in order.
    pub fn as_slice(&self) -> &[u64]
        ensures value { result.now ≡ self.now }
        ensures most { length result.now ≤ 28 }
    {
        &self.items[..self.len]
    }
}
