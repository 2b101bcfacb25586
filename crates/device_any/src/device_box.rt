//! A device between the phases of a script, and in one.
ghost use Rattle.std.specs.Prelude.{◌≡◌, ◌+◌, ◌<◌, ◌^◌, ◌++◌, ◌∷◌, [], ℕ, List, All, length, sum, Some, IfOk, OnOk};
ghost use Rattle.device_kinds.specs.Logs.{log_of, IsHistory};
ghost use Rattle.script_lines.specs.Parts.{blocks_of, kind_of};
ghost use Rattle.script_lines.specs.WellFormed.{IsDevice};
ghost use Rattle.device_any.specs.Seats.{kind_at};
ghost use Rattle.device_any.specs.Boxes.{AreSeatsFor, CanUniteBox, IsFresh, IsKept, IsOpen, UnitesBox, box_log, kind_in, seats_in, setup_for, setup_of, spec_of, subs_in};

use crate::{DeviceSeat, MachineBox};
use bus_script::DeviceSpec;
use device_kinds::DeviceHistory;
use kvp_ic::KvpMachine;
use net_dev::Station;
use scsi_disk::Disk;
use std::alloc::{AllocError, Global};
use util_ic::{BeatMachine, DownMachine};

/// A device of any kind: its machine, and what it served so far; or, while its channels are open, their seats.
#[derive(Drop)]
pub enum DeviceBox {
    /// A heartbeat service.
    Beat(MachineBox<BeatMachine>),
    /// A shutdown service.
    Down(MachineBox<DownMachine>),
    /// A disk.
    Disk {
        /// How many channels it has beside the first one.
        subs: u32,
        /// Its blocks.
        disk: MachineBox<Disk>,
    },
    /// A network's adapter.
    Net(MachineBox<Station>),
    /// A key-value service.
    Kvp(MachineBox<KvpMachine>),
}

// What comes of the machine of a device, as it is, as a case of what comes of those of all kinds, or with a seat of its kind.
macro_rules! among {
    (same, $case:ident, $value:expr) => {
        $value
    };
    ((with $seat:ident), $case:ident, $value:expr) => {
        match $seat {
            DeviceSeat::$case($seat) => $value,
            _ => unreachable!(),
        }
    };
    ($all:ident, $case:ident, $value:expr) => {
        $all::$case($value)
    };
}

// What is done with the machine of a device, whatever its kind.
macro_rules! each_box {
    ($device:expr, $how:tt, $own:ident => $call:expr) => {
        match $device {
            DeviceBox::Beat($own) => among!($how, Beat, $call),
            DeviceBox::Down($own) => among!($how, Down, $call),
            DeviceBox::Disk {
                subs: _,
                disk: $own,
            } => among!($how, Disk, $call),
            DeviceBox::Net($own) => among!($how, Net, $call),
            DeviceBox::Kvp($own) => among!($how, Kvp, $call),
        }
    };
}

// A device with a new machine.
macro_rules! new_box {
    ($alloc:expr, $case:ident, $machine:expr) => {
        Ok(DeviceBox::$case(MachineBox::make($alloc, $machine)?))
    };
}

impl DeviceBox {
    /// A new device. A disk is all zero, and can't read these places.
    pub fn make(alloc: Global, spec: DeviceSpec, bad: &[u64]) -> Result<DeviceBox, AllocError>
        requires device { IsDevice spec }
        requires bad { All (λ place. place < blocks_of spec) bad.now }
        ensures { IfOk result (IsFresh spec bad.now) }
    {
        match spec {
            DeviceSpec::Beat => new_box!(alloc, Beat, BeatMachine::make()),
            DeviceSpec::Down => new_box!(alloc, Down, DownMachine::make()),
            DeviceSpec::Disk { blocks, subs } => {
                let disk = MachineBox::make(alloc, Disk::make(alloc, blocks, bad)?)?;
                Ok(DeviceBox::Disk { subs, disk })
            }
            DeviceSpec::Net { mac, station } => new_box!(alloc, Net, Station::make(mac, station)),
            DeviceSpec::Kvp => new_box!(alloc, Kvp, KvpMachine::make(alloc)?),
        }
    }

    /// How many channels the device has beside the first one.
    pub fn subs(&self) -> u32
        ensures { result ≡ subs_in self.now }
    {
        match self {
            DeviceBox::Disk { subs, .. } => *subs,
            _ => 0,
        }
    }

    /// Opens the device's history again, with a seat for so many calls for each of its channels.
    pub fn share(&mut self, alloc: Global, quotas: &[u32]) -> Result<(), AllocError>
        requires kept { IsKept self.old }
        requires some { 0 < length quotas.now }
        requires few { length quotas.now < 2 ^ 32 }
        requires room { length (box_log self.old) + sum quotas.now < 2 ^ 32 }
        ensures kind { OnOk result (kind_in self.new ≡ Some (kind_of (spec_of self.old))) }
        ensures subs { OnOk result (subs_in self.new ≡ subs_in self.old) }
        ensures seats { OnOk result (AreSeatsFor self.old quotas.now (seats_in self.new)) }
    {
        each_box!(self, same, own => own.share(alloc, quotas))
    }

    /// Takes the first seat.
    pub fn take_first(&mut self) -> DeviceSeat
        requires { 0 < length (seats_in self.old) }
        ensures first { seats_in self.old ≡ result ∷ seats_in self.new }
        ensures kind { kind_in self.new ≡ kind_in self.old }
        ensures subs { subs_in self.new ≡ subs_in self.old }
    {
        each_box!(self, DeviceSeat, own => own.take_first())
    }

    /// Puts a seat behind the others.
    pub fn give_back(&mut self, seat: DeviceSeat) -> Result<(), AllocError>
        requires kind { kind_of (spec_of self.old) ≡ kind_at seat }
        requires open { IsOpen self.old }
        ensures seats { OnOk result (seats_in self.new ≡ seats_in self.old ++ seat ∷ []) }
        ensures kind { OnOk result (kind_in self.new ≡ kind_in self.old) }
        ensures subs { OnOk result (subs_in self.new ≡ subs_in self.old) }
    {
        each_box!(self, (with seat), own => own.give_back(seat))
    }

    /// Closes the device's history, once its channels gave all seats back: the device is whole again. One whose channels weren't opened stays. It takes no
    /// memory.
    pub fn unite(&mut self)
        requires { CanUniteBox self.old }
        ensures { UnitesBox self.old self.new }
    {
        each_box!(self, same, own => own.unite())
    }

    /// What the device served.
    pub fn into_history(self) -> DeviceHistory
        requires { IsKept self }
        ensures log { log_of result ≡ box_log self }
        ensures legal { (bad : List ℕ) → setup_of self ≡ setup_for (spec_of self) bad → IsHistory (spec_of self) bad result }
    {
        each_box!(self, DeviceHistory, own => own.into_history())
    }
}
