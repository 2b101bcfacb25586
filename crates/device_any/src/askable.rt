//! What can be asked on a channel.
ghost use Rattle.std.specs.Prelude.{◌≡◌, true};
ghost use Rattle.device_kinds.specs.Kinds.{IsAskable};

use bus_script::Ask;
use contact::DeviceKind;
use device_disk::is_disk_ask;
use device_ic::{is_beat_ask, is_down_ask};
use device_kvp::is_pair_ask;
use device_net::is_net_ask;

/// Whether this can be asked on a channel of this kind, and exactly that: a heartbeat, a shutdown, or of a disk a built command that moves at most 4,096 bytes, with data
/// exactly where it is a write, of an adapter a frame, a query, a set, a reset or a keepalive, and of a key-value service a request of one of its five pools.
pub fn is_askable(kind: DeviceKind, ask: &Ask) -> bool
    ensures can { result ≡ true → IsAskable kind ask.now }
    ensures only { IsAskable kind ask.now → result ≡ true }
{
    match (kind, ask) {
        (DeviceKind::Beat, Ask::Ic(ask)) => is_beat_ask(*ask),
        (DeviceKind::Down, Ask::Ic(ask)) => is_down_ask(*ask),
        (DeviceKind::Disk, Ask::Disk(request)) => is_disk_ask(&request.cdb, request.out.bytes()),
        (DeviceKind::Net, Ask::Net(message)) => is_net_ask(message),
        (DeviceKind::Kvp, Ask::Kvp(request)) => is_pair_ask(request),
        _ => false,
    }
}
