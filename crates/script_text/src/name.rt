//! Names of devices.
ghost use Rattle.std.specs.Prelude.{◌≡◌, ◌<◌, ◌≤◌, ◌∷◌, [], List, length, bytes_eq};
ghost use Rattle.std.specs.List.{list_all};
ghost use Rattle.std.specs.Cmp.{partial_equiv_from_equiv};
ghost use Rattle.std.specs.Cmp.Lexicographic.{nat_list_eq_equiv};
ghost use Rattle.std.specs.Cmp.Rules.{hashing};
ghost use Rattle.std.proofs.Common.{rules};
ghost use Rattle.script_text.specs.Forms.{is_name, is_name_byte, is_lower};

use crate::number::is_digit;
use inline_bytes::Held;
use std::hash::{Hash, Hasher};
use std::marker::Model;

/// A name of 1 to 16 bytes. Contracts see the list of them.
#[derive(Drop)]
pub struct Name {
    held: Held<16>,
}

impl Model for Name {
    ghost use Rattle.std.specs.Prelude.{List, ℕ, ◌<◌, length};

    ghost Value = { List ℕ };

    ghost view = { λ n. n.held };

    ghost invariant = { λ n. 0 < length n.held };
}

impl Name {
    /// A name of these bytes.
    pub fn of(word: &[u8]) -> Name
        requires some { 0 < length word.now }
        requires short { length word.now ≤ 16 }
        ensures { result ≡ word.now }
    {
        Name {
            held: Held::of(word),
        }
    }

    /// The bytes of the name.
    pub fn bytes(&self) -> &[u8]
        ensures bytes { result.now ≡ self.now }
        ensures some { 0 < length result.now }
        ensures short { length result.now ≤ 16 }
    {
        self.held.bytes()
    }

    /// The same name.
    pub fn again(&self) -> Name
        ensures { result ≡ self.now }
    {
        Name {
            held: self.held.again(),
        }
    }
}

impl PartialEq for Name {
    ghost eq = { λ a b. bytes_eq a b };

    ghost laws = { partial_equiv_from_equiv nat_list_eq_equiv };

    fn eq(&self, other: &Name) -> bool {
        self.bytes() == other.bytes()
    }
}

impl Eq for Name {
    ghost laws = { nat_list_eq_equiv };
}

impl Hash for Name {
    ghost hash_input = { λ name. name ∷ [] };

    ghost respects_eq = { Prim.search (hashing, rules) };

    fn hash<H: Hasher>(&self, state: &mut H) {
        state.write(self.bytes());
    }
}

fn is_lower(c: u8) -> bool
    ensures { result ≡ is_lower c }
{
    b'a' <= c && c <= b'z'
}

fn is_name_byte(c: u8) -> bool
    ensures { result ≡ is_name_byte c }
{
    is_lower(c) || is_digit(c) || c == b'_'
}

fn are_name_bytes(word: &[u8]) -> bool
    ensures { result ≡ list_all is_name_byte word.now }
{
    word.iter().all(|c| is_name_byte(*c))
}

/// Whether a word has the form of a name: 1 to 16 of `a` to `z`, `0` to `9` and `_`, a letter first.
pub fn is_name(word: &[u8]) -> bool
    ensures { result ≡ is_name word.now }
{
    match word {
        [first, rest @ ..] => rest.len() < 16 && is_lower(*first) && are_name_bytes(rest),
        [] => false,
    }
}
