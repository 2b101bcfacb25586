//! A list of bytes in an array.
ghost use Rattle.std.specs.Prelude.{◌≡◌, ◌+◌, ◌<◌, ◌≤◌, ◌++◌, [], length};
ghost use Rattle.std.specs.List.{AllByRecursion};

use arrayvec::ArrayVec;
use std::marker::Model;

/// At most `N` bytes, held in place. Contracts see the list of them.
#[derive(Drop)]
pub struct Held<const N: usize> {
    items: ArrayVec<u8, N>,
}

impl<const N: usize> Model for Held<N> {
    ghost use Rattle.std.specs.Prelude.{List, ℕ, ◌≤◌, length};

    ghost Value = { List ℕ };

    ghost view = { λ h. h.items.items };

    ghost invariant = { λ h. length h.items.items ≤ N };
}

impl<const N: usize> Held<N> {
    /// No bytes.
    pub fn empty() -> Held<N>
        ensures { result ≡ [] }
    {
        Held {
            items: ArrayVec::new(),
        }
    }

    /// These bytes.
    pub fn of(bytes: &[u8]) -> Held<N>
        requires { length bytes.now ≤ N }
        ensures value { result ≡ bytes.now }
        ensures bytes { AllByRecursion (λ b. b < 256) result }
    {
        let mut held = Held::empty();
        held.extend(bytes);
        held
    }

    /// The bytes.
    pub fn bytes(&self) -> &[u8]
        ensures value { result.now ≡ self.now }
        ensures most { length result.now ≤ N }
        ensures bytes { AllByRecursion (λ b. b < 256) self.now }
    {
        let bytes = self.items.as_slice();
        are_bytes(bytes);
        bytes
    }

    /// The same bytes once more. It takes no memory.
    pub fn again(&self) -> Held<N>
        ensures { result ≡ self.now }
    {
        Held::of(self.bytes())
    }

    /// Puts more bytes at the end.
    pub fn extend(&mut self, bytes: &[u8])
        requires { length self.old + length bytes.now ≤ N }
        ensures value { self.new ≡ self.old ++ bytes.now }
        ensures bytes { AllByRecursion (λ b. b < 256) self.new }
    {
        let Ok(()) = self.items.try_extend_from_slice(bytes) else {
            unreachable!()
        };
        are_bytes(self.items.as_slice());
    }
}

/// Bytes are below 256. It does nothing.
fn are_bytes(bytes: &[u8])
    ensures { AllByRecursion (λ b. b < 256) bytes.now }
{
    // For the proof: the numbers of a slice that is read are known to fit their type.
    let _len = bytes.len();
}
