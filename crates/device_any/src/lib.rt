//! A device of any kind: its wire, its seats, and what stands of it between its channels' calls.
#![tactic(auto)]

mod any_wire;
mod askable;
mod device_box;
mod device_head;
mod device_seat;
mod machine_box;

pub use any_wire::{DeviceProtocol, DeviceWire};
pub use askable::is_askable;
pub use device_box::DeviceBox;
pub use device_head::{DeviceAnswer, DeviceHead};
pub use device_seat::DeviceSeat;
pub use machine_box::MachineBox;
