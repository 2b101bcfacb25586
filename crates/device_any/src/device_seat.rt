//! The seat of a device at its channel.
ghost use Rattle.std.specs.Prelude.{◌≡◌};
ghost use Rattle.device_any.specs.Seats.{kind_at};

use crate::DeviceProtocol;
use bus_script::{Ask, Reply};
use channel_protocol::Device;
use contact::DeviceKind;
use hist_lock::HistSeat;
use kvp_ic::KvpMachine;
use net_dev::{NetReply, Station};
use scsi_disk::Disk;
use std::sync::Wait;
use util_ic::{BeatMachine, DownMachine};

/// A place at a device's machine, by the kind of the device.
#[derive(Drop)]
pub enum DeviceSeat {
    Beat(HistSeat<BeatMachine>),
    Down(HistSeat<DownMachine>),
    Disk(HistSeat<Disk>),
    Net(HistSeat<Station>),
    Kvp(HistSeat<KvpMachine>),
}

// What is done with a seat: its kind is told, or how many calls it has left; or it is called with the request of its kind, which is the case of this name. A call returns by itself, so that a reply is
// not moved through the value of a `match`.
macro_rules! on_seat {
    (kind, $kind:ident, $case:ident, $seat:ident) => {
        DeviceKind::$kind
    };
    (left, $kind:ident, $case:ident, $seat:ident) => {
        $seat.left()
    };
    ((call $rt:expr, $request:expr), Net, Net, $seat:ident) => {{
        let Ask::Net(message) = $request else {
            unreachable!()
        };
        let receipt = $seat.with($rt, Ok(message));
        let NetReply { status, back } = receipt.reply;
        return (receipt.serial, Reply::Net { status, back });
    }};
    ((call $rt:expr, $request:expr), $kind:ident, $case:ident, $seat:ident) => {{
        let Ask::$case(own) = $request else {
            unreachable!()
        };
        let receipt = $seat.with($rt, own);
        return (receipt.serial, Reply::$case(receipt.reply));
    }};
}

// What is done with a seat, whatever its kind.
macro_rules! each_seat {
    ($seat:expr, $how:tt) => {
        match $seat {
            DeviceSeat::Beat(seat) => on_seat!($how, Beat, Ic, seat),
            DeviceSeat::Down(seat) => on_seat!($how, Down, Ic, seat),
            DeviceSeat::Disk(seat) => on_seat!($how, Disk, Disk, seat),
            DeviceSeat::Net(seat) => on_seat!($how, Net, Net, seat),
            DeviceSeat::Kvp(seat) => on_seat!($how, Kvp, Kvp, seat),
        }
    };
}

impl DeviceSeat {
    /// The kind of the seat's device.
    pub fn kind(&self) -> DeviceKind
        ensures { result ≡ kind_at self.now }
    {
        each_seat!(self, kind)
    }
}

impl Device<DeviceProtocol> for DeviceSeat {
    ghost use Rattle.std.specs.Prelude.{◌≡◌, refl};
    ghost use Rattle.std.proofs.Common.{◌∙◌};
    ghost use Rattle.device_any.specs.Seats.{served_at, left_at, kind_at, device_place};

    ghost calls = { served_at };

    ghost left = { left_at };

    ghost serves = { λ s t. kind_at s ≡ t.kind };

    ghost same = { λ s t. device_place t ≡ device_place s };

    ghost same_refl = { λ s. refl };

    ghost same_trans = { λ s t u p q. q ∙ p };

    fn left(&self) -> u32 {
        each_seat!(self, left)
    }

    fn call<R: Wait>(&mut self, rt: &R, _protocol: &DeviceProtocol, request: Ask) -> (u32, Reply) {
        each_seat!(self, (call rt, request))
    }
}
