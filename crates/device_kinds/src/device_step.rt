//! The start-up of a channel of any kind.

use disk_format::DiskStep;
use ic_format::IcStep;
use kvp_format::KvpStep;
use net_format::NetStep;

/// A step of the start-up, by the kind of the device.
#[derive(Clone, Copy, Debug, PartialEq, Eq)]
pub enum DeviceStep {
    /// Of a utility service's.
    Ic(IcStep),
    /// Of a disk's.
    Disk(DiskStep),
    /// Of a network's.
    Net(NetStep),
    /// Of a key-value service's.
    Kvp(KvpStep),
}
