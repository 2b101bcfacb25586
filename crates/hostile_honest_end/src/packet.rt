//! A packet that says nothing.
ghost use Rattle.std.specs.Prelude.{◌≡◌, ◌≤◌, IfOk, length};
ghost use Rattle.ring_machine.specs.States.{IsPacket};
ghost use Rattle.hostile_honest_end.specs.Calls.{in_band};

use std::alloc::{AllocError, Global};

// Type 6, and an offset of two words.
const HEAD: u64 = 6 + 2 * 0x1_0000;

/// An in-band packet of so many words, of id 0: all of them are 0 behind the first.
pub(crate) fn in_band(alloc: Global, len: u32) -> Result<Vec<u64>, AllocError>
    requires { (2 ≤ len) × (len ≤ 8190) }
    ensures words { IfOk result (λ p. p.items ≡ in_band len) }
    ensures packet { IfOk result (λ p. IsPacket p.items) }
    ensures len { IfOk result (λ p. length p.items ≡ len) }
{
    let mut words = Vec::from_elem(alloc, 0, len as usize)?;
    words[0] = HEAD + u64::from(len) * 0x1_0000_0000;
    Ok(words)
}
