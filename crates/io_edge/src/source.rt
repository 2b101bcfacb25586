//! Where bytes come from.
ghost use Rattle.std.specs.Prelude.{◌≡◌, ℕ, ◌<◌, ◌≤◌, List, length, take, Option, IfOk, IsErr, OnErr};
ghost use Rattle.io_edge.specs.Edge.{Rose, Gives, IsAtEnd};

use crate::Failed;

/// Bytes to be read, in order. A source may tell what is left, and counts its faults.
pub trait Source {
    /// The bytes left, where they are told.
    ghost left: { Self → Option (List ℕ) };

    /// How often it has failed; the greatest `u64` counts as having risen.
    ghost faults: { Self → ℕ };

    /// Gives the next bytes, as the first of `buf`, and answers how many. `Ok(0)` is the end of
    /// input. `Failed` gives nothing, and comes only where the count of faults rose.
    fn read(&mut self, buf: &mut [u8]) -> Result<usize, Failed>
        requires { 0 < length buf.old }
        ensures within { IfOk result (λ n. n ≤ length buf.new) }
        ensures gives { IfOk result (λ n. Gives (left self.old) (left self.new) (take n buf.new)) }
        ensures ended { IfOk result (λ n. n ≡ 0 → IsAtEnd (left self.old)) }
        ensures kept { OnErr result (left self.new ≡ left self.old) }
        ensures later { faults self.old ≤ faults self.new }
        ensures cause { IsErr result → Rose (faults self.old) (faults self.new) };
}
