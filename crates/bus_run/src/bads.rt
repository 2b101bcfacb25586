//! Which places of a script's disks can't be read.
ghost use Rattle.std.specs.Prelude.{◌≡◌, [], ◌∷◌, MatchOption, IfOk};
ghost use Rattle.script_lines.specs.Parts.{bads_by, bads_of};

use bus_script::{Line, What};
use std::alloc::{AllocError, Global};

/// The place of a device that a line makes bad.
fn bad_by(device: usize, what: &What) -> Option<u64>
    ensures { MatchOption result (bads_by device what.now ≡ []) (λ lba. bads_by device what.now ≡ lba ∷ []) }
{
    match what {
        What::Bad { device: at, lba } => {
            if *at as usize == device {
                Some(*lba)
            } else {
                None
            }
        }
        _ => None,
    }
}

/// The bad places of a device, in order of their lines.
pub fn bad_places(alloc: Global, device: usize, lines: &[Line]) -> Result<Vec<u64>, AllocError>
    ensures { IfOk result (λ places. places.items ≡ bads_of device lines.now) }
{
    let mut places = Vec::new(alloc);
    for line in lines {
        if let Some(lba) = bad_by(device, &line.what) {
            places.push(lba)?;
        }
    }
    Ok(places)
}
