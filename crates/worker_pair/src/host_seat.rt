//! The seat of a device of the host.
ghost use Rattle.std.specs.Prelude.{◌≡◌};
ghost use Rattle.worker_pair.specs.Seats.{at_host, IsAt};
ghost use Rattle.io_edge.specs.declared.side.Side.TheVariants.{Host as HostSide};

use device_any::DeviceSeat;
use hist_lock::HistSeat;
use net_dev::Station;
use scsi_disk::Disk;

/// The seat that the host's worker of a channel has at its device.
#[derive(Drop)]
pub enum HostSeat {
    /// The host asks, and serves nothing.
    None,
    /// It serves a disk.
    Disk(HistSeat<Disk>),
    /// It serves a network's adapter.
    Net(HistSeat<Station>),
}

impl HostSeat {
    /// The same as a seat of any device: none where the host asks.
    pub fn into_device(self) -> Option<DeviceSeat>
        ensures value { result ≡ at_host self }
        ensures side { IsAt HostSide result }
    {
        match self {
            HostSeat::None => None,
            HostSeat::Disk(seat) => Some(DeviceSeat::Disk(seat)),
            HostSeat::Net(seat) => Some(DeviceSeat::Net(seat)),
        }
    }

    /// The seat of a device of the host, or none.
    pub fn of_device(seat: Option<DeviceSeat>) -> HostSeat
        requires { IsAt HostSide seat }
        ensures { at_host result ≡ seat }
    {
        match seat {
            None => HostSeat::None,
            Some(DeviceSeat::Disk(seat)) => HostSeat::Disk(seat),
            Some(DeviceSeat::Net(seat)) => HostSeat::Net(seat),
            Some(_) => unreachable!(),
        }
    }
}
