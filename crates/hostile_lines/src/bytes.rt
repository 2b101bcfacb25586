//! The bytes that digits write.
ghost use Rattle.std.specs.Prelude.{◌≡◌};

use std::marker::Model;

/// Some bytes. Contracts see the list of them.
#[derive(Drop)]
pub struct Bytes {
    held: Vec<u8>,
}

impl Model for Bytes {
    ghost use Rattle.std.specs.Prelude.{List, ℕ};

    ghost Value = { List ℕ };

    ghost view = { λ b. b.held.items };
}

impl Bytes {
    /// These bytes.
    pub fn of(held: Vec<u8>) -> Bytes
        ensures { result ≡ held.items }
    {
        Bytes { held }
    }

    /// The bytes as they stand.
    pub fn as_slice(&self) -> &[u8]
        ensures { result.now ≡ self.now }
    {
        &self.held
    }
}
