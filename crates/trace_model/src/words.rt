//! The words of a packet.
ghost use Rattle.std.specs.Prelude.{◌≡◌, []};

use std::marker::Model;

/// The words of a packet. Contracts see the list of them.
#[derive(Drop)]
pub struct Words {
    held: Vec<u64>,
}

impl Model for Words {
    ghost use Rattle.std.specs.Prelude.{List, ℕ};

    ghost Value = { List ℕ };

    ghost view = { λ w. w.held.items };
}

impl Words {
    /// These words.
    pub fn of(held: Vec<u64>) -> Words
        ensures { result ≡ held.items }
    {
        Words { held }
    }

    /// The words as they stand.
    #[inline(always)]
    pub fn as_slice(&self) -> &[u64]
        ensures { result.now ≡ self.now }
    {
        &self.held
    }

    /// Forgets them, and keeps their room.
    pub fn clear(&mut self)
        ensures { self.new ≡ [] }
    {
        self.held.clear();
    }
}
