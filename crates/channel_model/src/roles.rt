//! Which end of a channel asks.
ghost use Rattle.std.specs.Prelude.{◌≡◌};
ghost use Rattle.channel_model.specs.Roles.{side_that_asks};

use contact::DeviceKind;
use io_edge::Side;

/// The side whose end asks. The host asks the services of a guest (heartbeat, shutdown and key-value exchange), and the guest asks the devices of a host (disk and
/// network). Source: Linux `drivers/hv/hv_util.c`, `drivers/scsi/storvsc_drv.c` and `drivers/net/hyperv/netvsc.c`.
pub fn side_that_asks(kind: DeviceKind) -> Side
    ensures { result ≡ side_that_asks kind }
{
    match kind {
        DeviceKind::Beat => Side::Host,
        DeviceKind::Down => Side::Host,
        DeviceKind::Disk => Side::Guest,
        DeviceKind::Net => Side::Guest,
        DeviceKind::Kvp => Side::Host,
    }
}
