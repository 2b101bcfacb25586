//! What the workers of a channel leave.
use crate::{GuestSeat, HostSeat};
use bus_script::Reply;
use device_any::DeviceSeat;
use ring_core::End;
use ring_seat::TableSeat;
use worker_port::Ended;

/// What a worker leaves, with its seat as its side has it.
#[derive(Drop)]
pub struct Done<S> {
    pub end: End<TableSeat>,
    pub seat: S,
    pub ended: Ended,
    /// Where the worker serves: the serials of the requests of the script that it served, in order.
    pub serials: Vec<u32>,
    /// Where it asks: the replies to the requests of the script, in order.
    pub replies: Vec<Reply>,
}

/// What the worker of an end of either side leaves. It has a seat where it served.
pub type WorkerDone = Done<Option<DeviceSeat>>;

/// What a guest's worker leaves.
pub type GuestDone = Done<GuestSeat>;

/// What a host's worker leaves.
pub type HostDone = Done<HostSeat>;
