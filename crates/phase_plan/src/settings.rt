//! What a script's lines set of a device's channels.
ghost use Rattle.std.specs.Prelude.{◌≡◌};
ghost use Rattle.script_lines.specs.Parts.{ring_pages_of, window_of};

use script_lines::{Line, What};

/// The data pages of each ring of a device: those that the first line sets that sets them, or 1.
pub fn ring_pages(lines: &[Line], device: u32) -> u32
    ensures { result ≡ ring_pages_of device lines.now }
{
    for line in lines {
        if let What::RingSize { device: d, pages } = &line.what {
            if *d == device {
                return *pages;
            }
        }
    }
    1
}

/// How many requests of a device's channel can be open: as many as the first line sets that sets it, or 4.
pub fn window(lines: &[Line], device: u32) -> u32
    ensures { result ≡ window_of device lines.now }
{
    for line in lines {
        if let What::Window { device: d, size } = &line.what {
            if *d == device {
                return *size;
            }
        }
    }
    4
}
