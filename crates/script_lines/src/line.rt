//! What the lines of a script say.
ghost use Rattle.std.specs.Prelude.{◌≡◌};

use contact::Version;
use kvp_ic::Kvp;
use rndis_msg::Rndis;
use script_text::Name;
use scsi_disk::DiskRequest;
use util_ic::IcAsk;

/// A device that a script offers.
#[derive(Clone, Copy, Debug, PartialEq, Eq)]
pub enum DeviceSpec {
    /// A heartbeat service.
    Beat,
    /// A shutdown service.
    Down,
    /// A disk.
    Disk {
        /// How many blocks of 512 bytes it has.
        blocks: u64,
        /// How many channels it has beside the first one.
        subs: u32,
    },
    /// A network: an adapter, and one station beyond it.
    Net {
        /// The adapter's address.
        mac: [u8; 6],
        /// The station's address.
        station: [u8; 6],
    },
    /// A key-value service.
    Kvp,
}

/// A request to a device.
#[derive(Drop)]
pub enum Ask {
    /// A request to a utility service.
    Ic(IcAsk),
    /// A command for a disk.
    Disk(DiskRequest),
    /// A message for a network's adapter. One that has a request id has 0 there: the packet that carries it gives it its own.
    Net(Rndis),
    /// A request to a key-value service.
    Kvp(Kvp),
}

impl Ask {
    /// The same request. It takes no memory.
    pub fn again(&self) -> Ask
        ensures { result ≡ self.now }
    {
        // Each arm returns by itself, so that no request is moved through the value of the `match`.
        match self {
            Ask::Ic(ask) => return Ask::Ic(*ask),
            Ask::Disk(request) => {
                return Ask::Disk(DiskRequest {
                    cdb: request.cdb,
                    out: request.out.again(),
                });
            }
            Ask::Net(message) => return Ask::Net(message.again()),
            Ask::Kvp(request) => return Ask::Kvp(request.again()),
        }
    }
}

/// What a line with words says. Devices count from 0, in order of offer.
#[derive(Drop)]
pub enum What {
    /// The highest versions of the guest and of its host.
    Contact { guest: Version, host: Version },
    /// The host offers a device under a name.
    Offer { name: Name, device: DeviceSpec },
    /// A block of a disk can't be read.
    Bad { device: u32, lba: u64 },
    /// Each ring of a device has this many data pages of 4,096 bytes.
    RingSize { device: u32, pages: u32 },
    /// A channel of a device has at most this many requests open.
    Window { device: u32, size: u32 },
    /// A device is asked.
    Ask { device: u32, ask: Ask },
    /// A device is taken back at the end of this phase, for good. Each of its channels is served
    /// `after` requests of the phase, or all where there are fewer; where it is `held`, the answer
    /// to the last of so many does not go back.
    Rescind { device: u32, after: u32, held: bool },
    /// A device is closed at the end of this phase, for good.
    Shut { device: u32 },
    /// The interrupts of a device's first channel go to this processor, 0 to 63.
    Modify { device: u32, vp: u32 },
    /// The next phase begins.
    Phase,
}

/// A line with words, and its number; lines count from 1.
#[derive(Drop)]
pub struct Line {
    /// The number of the line among all lines of the script.
    pub number: u32,
    /// What it says.
    pub what: What,
}
