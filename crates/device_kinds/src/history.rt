//! What one device served over the whole run.
use hist_lock::History;
use kvp_ic::KvpMachine;
use net_dev::Station;
use scsi_disk::Disk;
use util_ic::{BeatMachine, DownMachine};

/// A device's history, by the kind of the device.
#[derive(Drop)]
pub enum DeviceHistory {
    Beat(History<BeatMachine>),
    Down(History<DownMachine>),
    Disk(History<Disk>),
    Net(History<Station>),
    Kvp(History<KvpMachine>),
}
