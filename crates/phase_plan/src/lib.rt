//! The plan of a phase of a script: what its lines say to each device, and which channels it opens. The control path and the bus both read it.
#![tactic(auto)]

mod dealing;
mod device_line;
mod device_lines;
mod opening;
mod openings;
mod settings;
mod split;

pub use dealing::deal_lines;
pub use device_line::{DeviceLine, to_device};
pub use device_lines::DeviceLines;
pub use opening::Opening;
pub use openings::{end_devices, phase_openings};
pub use settings::{ring_pages, window};
pub use split::part_at;
