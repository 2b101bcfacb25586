//! Where bytes go.
ghost use Rattle.std.specs.Prelude.{◌≡◌, ℕ, ◌<◌, ◌≤◌, List, length, take, Option, IfOk, IsErr, OnErr};
ghost use Rattle.io_edge.specs.Edge.{Rose, Grows, HasRoom, Narrows};

use crate::Failed;

/// Bytes to be written, in order. A sink may tell what was written and its room, and counts its faults.
pub trait Sink {
    /// The bytes written, where they are told.
    ghost written: { Self → Option (List ℕ) };

    /// The room left, in bytes, where it is told.
    ghost room: { Self → Option ℕ };

    /// How often it has failed; the greatest `u64` counts as having risen.
    ghost faults: { Self → ℕ };

    /// Appends the first bytes of `buf`, at least one, and answers how many. `Failed` appends
    /// nothing, and comes only where the count of faults rose. A told room has to be enough.
    fn write(&mut self, buf: &[u8]) -> Result<usize, Failed>
        requires some { 0 < length buf.now }
        requires fits { HasRoom (room self.old) (length buf.now) }
        ensures within { IfOk result (λ n. (1 ≤ n) × (n ≤ length buf.now)) }
        ensures grows { IfOk result (λ n. Grows (written self.old) (written self.new) (take n buf.now)) }
        ensures narrows { IfOk result (λ n. Narrows (room self.old) (room self.new) n) }
        ensures kept { OnErr result ((written self.new ≡ written self.old) × (room self.new ≡ room self.old)) }
        ensures later { faults self.old ≤ faults self.new }
        ensures cause { IsErr result → Rose (faults self.old) (faults self.new) };
}
