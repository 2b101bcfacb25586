//! The channels that a guest moves to other processors.

ghost use Rattle.std.specs.Prelude.{◌≡◌, ◌<◌, ◌≤◌, ◌++◌, [], ◌∷◌, length};

use std::marker::Model;

/// A channel that is moved.
#[derive(Clone, Copy)]
pub struct Move {
    /// Its number.
    pub relid: u32,
    /// The virtual processor that its interrupts go to then.
    pub vp: u32,
}

// None.
const NO_MOVE: Move = Move { relid: 0, vp: 0 };

/// At most 16 channels that are moved. Contracts see the list of them.
#[derive(Clone, Copy)]
pub struct Moves {
    len: usize,
    items: [Move; 16],
}

impl Model for Moves {
    ghost use Rattle.std.specs.Prelude.{List};
    ghost use Rattle.control_model.specs.declared.moves.Move.{Move};

    ghost Value = { List Move };

    // It names the fields, so it stands below `Value`.
    ghost use Rattle.control_model.specs.MoveList.{Holds, list_in, fields_of, fields_again};

    ghost view = { list_in };

    ghost invariant = { Holds };

    ghost inverse = { fields_of };

    ghost inverse_ok = { fields_again };
}

impl Moves {
    /// None.
    pub fn new() -> Moves
        ensures { result ≡ [] }
    {
        Moves {
            len: 0,
            items: [NO_MOVE; 16],
        }
    }

    /// Adds one at the end.
    pub fn push(&mut self, one: Move)
        requires { length self.old < 16 }
        ensures { self.new ≡ self.old ++ one ∷ [] }
    {
        self.items[self.len] = one;
        self.len += 1;
    }

    /// All of them, in order.
    pub fn as_slice(&self) -> &[Move]
        ensures value { result.now ≡ self.now }
        ensures most { length result.now ≤ 16 }
    {
        &self.items[..self.len]
    }
}
