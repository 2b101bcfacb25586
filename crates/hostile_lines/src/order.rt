//! Changes in the order of their steps.
ghost use Rattle.std.specs.Prelude.{◌≡◌, ◌/◌, ℕ, IfOk};
ghost use Rattle.std.specs.List.{All};
ghost use Rattle.ring_core.specs.Told.{IsScript};
ghost use Rattle.hostile_lines.specs.Ranges.{IsChangeIn};
ghost use Rattle.hostile_lines.specs.StepOrder.{IsInStepOrder};

use ring_core::Change;
use std::alloc::AllocError;

/// The changes in the order of their steps. Those of one step stand as they stood.
pub fn in_step_order(changes: Vec<Change>) -> Result<Vec<Change>, AllocError>
    ensures order { IfOk result (λ sorted. IsInStepOrder changes.items sorted.items) }
    ensures script { IfOk result (λ sorted. (d : ℕ) → All (IsChangeIn d) changes.items → IsScript (d / 8) 0 sorted.items) }
{
    let mut sorted = changes;
    sorted.sort_by_key(|change| -> u64 { change.step })?;
    Ok(sorted)
}
