//! The seat of a device of the guest.
ghost use Rattle.std.specs.Prelude.{◌≡◌};
ghost use Rattle.worker_pair.specs.Seats.{at_guest, IsAt};
ghost use Rattle.io_edge.specs.declared.side.Side.TheVariants.{Guest as GuestSide};

use device_any::DeviceSeat;
use hist_lock::HistSeat;
use kvp_ic::KvpMachine;
use util_ic::{BeatMachine, DownMachine};

/// The seat that the guest's worker of a channel has at its device.
#[derive(Drop)]
pub enum GuestSeat {
    /// The guest asks, and serves nothing.
    None,
    /// It serves heartbeats.
    Beat(HistSeat<BeatMachine>),
    /// It serves shutdowns.
    Down(HistSeat<DownMachine>),
    /// It serves key-value exchange.
    Kvp(HistSeat<KvpMachine>),
}

impl GuestSeat {
    /// The same as a seat of any device: none where the guest asks.
    pub fn into_device(self) -> Option<DeviceSeat>
        ensures value { result ≡ at_guest self }
        ensures side { IsAt GuestSide result }
    {
        match self {
            GuestSeat::None => None,
            GuestSeat::Beat(seat) => Some(DeviceSeat::Beat(seat)),
            GuestSeat::Down(seat) => Some(DeviceSeat::Down(seat)),
            GuestSeat::Kvp(seat) => Some(DeviceSeat::Kvp(seat)),
        }
    }

    /// The seat of a device of the guest, or none.
    pub fn of_device(seat: Option<DeviceSeat>) -> GuestSeat
        requires { IsAt GuestSide seat }
        ensures { at_guest result ≡ seat }
    {
        match seat {
            None => GuestSeat::None,
            Some(DeviceSeat::Beat(seat)) => GuestSeat::Beat(seat),
            Some(DeviceSeat::Down(seat)) => GuestSeat::Down(seat),
            Some(DeviceSeat::Kvp(seat)) => GuestSeat::Kvp(seat),
            Some(_) => unreachable!(),
        }
    }
}
