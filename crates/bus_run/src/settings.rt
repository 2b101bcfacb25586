//! What the lines of a script set of its devices' channels.
ghost use Rattle.std.specs.Prelude.{◌≡◌, ◌≤◌, IfOk};
ghost use Rattle.bus_run.specs.Settings.{SettingsOf, settings_of};

use bus_script::Line;
use phase_plan::{ring_pages, window};
use std::alloc::{AllocError, Global};

/// What the lines set of a device's channels.
#[derive(Drop)]
pub struct Settings {
    /// The pages of data of each ring.
    pub pages: u32,
    /// How many requests of a channel can be open.
    pub window: u32,
}

/// What the lines set of a device's channels.
fn settings_of(device: u32, lines: &[Line]) -> Settings
    ensures { result ≡ settings_of lines.now device }
{
    Settings {
        pages: ring_pages(lines, device),
        window: window(lines, device),
    }
}

/// What the lines set of the channels of so many devices.
pub fn all_settings(
    alloc: Global,
    devices: usize,
    lines: &[Line],
) -> Result<Vec<Settings>, AllocError>
    requires { devices ≤ 16 }
    ensures { IfOk result (λ settings. SettingsOf lines.now devices settings.items) }
{
    let mut settings = Vec::with_capacity(alloc, devices)?;
    for device in 0..devices {
        settings.push_reserved(settings_of(device as u32, lines));
    }
    Ok(settings)
}
