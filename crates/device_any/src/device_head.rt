//! What is decoded of a packet of a device of any kind.

use device_disk::DiskAnswer;
use stor_proto::Vstor;
use util_ic::{IcAnswer, IcAsk};

/// What is decoded of a packet that asks a device, once for all that is done with it.
#[derive(Drop)]
pub enum DeviceHead {
    /// What a service is asked.
    Ic(IcAsk),
    /// The storage packet of a disk's.
    Disk(Vstor),
    /// Nothing, of an adapter's.
    Net(()),
    /// Nothing, of a key-value service's.
    Kvp(()),
}

/// What is decoded of an answer that says something.
#[derive(Drop)]
pub enum DeviceAnswer {
    /// What a service answered.
    Ic(IcAnswer),
    /// How a disk's srb ended.
    Disk(DiskAnswer),
    /// The status of an adapter's.
    Net(u32),
    /// Nothing, of a key-value service's.
    Kvp(()),
}
