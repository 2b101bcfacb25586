//! Words that are set before all steps.
ghost use Rattle.std.specs.Prelude.{◌≡◌, ◌/◌, ℕ};
ghost use Rattle.std.specs.List.{All};
ghost use Rattle.hostile_lines.specs.Ranges.{IsPutIn};
ghost use Rattle.hostile_run.specs.Run.{put_all};

use hostile_lines::Put;
use ring_core::ToldMem;

/// Sets these words, in order.
pub(crate) fn put_all(mem: &mut ToldMem, d: u32, puts: &[Put])
    requires size { mem.old.cells ≡ d / 8 }
    requires places { All (IsPutIn d) puts.now }
    ensures words { mem.new.memory.words ≡ put_all mem.old.cells puts.now mem.old.memory.words }
    ensures rest { (mem.new.cells ≡ mem.old.cells) × (mem.new.pages ≡ mem.old.pages) × (mem.new.memory.steps ≡ mem.old.memory.steps) × (mem.new.memory.due ≡ mem.old.memory.due) }
{
    let mut rest = puts;
    while let [put, after @ ..] = rest {
        mem.put(put.place, put.value);
        rest = after;
    }
}
