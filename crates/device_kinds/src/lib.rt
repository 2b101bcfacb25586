//! The kinds of devices, put together once: what their channels say, and what they served, as values of one type.
#![tactic(auto)]

mod device_step;
mod history;
pub mod laws;

pub use device_step::DeviceStep;
pub use history::DeviceHistory;
