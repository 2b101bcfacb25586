//! Both workers of a new channel.
ghost use Rattle.std.specs.Prelude.{◌≡◌, ◌≤◌, IfOk};
ghost use Rattle.io_edge.specs.declared.side.Side.TheVariants.{Guest as GuestSide, Host as HostSide};
ghost use Rattle.ring_seat.specs.Settling.{AreOfOneChannel};
ghost use Rattle.channel_model.specs.Roles.{side_that_asks};
ghost use Rattle.worker_pair.specs.Pairs.{AreMadeAt, ArePair, IsNewEnd, dealt, pages_on};
ghost use Rattle.worker_pair.specs.Plans.{CanPlan, planned};
ghost use Rattle.device_any.specs.Seats.{kind_at, left_at};
ghost use Rattle.worker_pair.specs.Workers.{end_at};

use crate::making::make_worker;
use crate::{ChannelPlan, GuestWorker, HostWorker};
use bus_script::Ask;
use channel_model::side_that_asks;
use device_any::DeviceSeat;
use io_edge::Side;
use ring_seat::{GuestEnd, HostEnd};
use std::alloc::{AllocError, Global};

// What the guest's worker and the host's are made with, where this side asks.
fn deal(
    alloc: Global,
    asks_at: Side,
    seat: DeviceSeat,
    asks: Vec<Ask>,
) -> (Option<DeviceSeat>, Vec<Ask>, Option<DeviceSeat>, Vec<Ask>)
    ensures guest { (result.0, result.1.items) ≡ dealt asks_at GuestSide seat asks.items }
    ensures host { (result.2, result.3.items) ≡ dealt asks_at HostSide seat asks.items }
{
    match asks_at {
        Side::Guest => (None, asks, Some(seat), Vec::new(alloc)),
        Side::Host => (Some(seat), Vec::new(alloc), None, asks),
    }
}

/// The guest's worker and the host's of a new channel, which has the data pages of its kind (`pages_on`): a disk's one for each request that can be open, and a network's all 128. The one at
/// the side that asks has these requests, and the other one has this seat. They take all memory that the phase needs.
pub fn make_both(
    alloc: Global,
    guest: GuestEnd,
    host: HostEnd,
    seat: DeviceSeat,
    plan: ChannelPlan,
    asks: Vec<Ask>,
) -> Result<(GuestWorker, HostWorker), AllocError>
    requires plan { CanPlan (side_that_asks plan.kind) (planned plan asks.items) }
    requires seat { (kind_at seat ≡ plan.kind) × (plan.count ≤ left_at seat) }
    requires channel { AreOfOneChannel guest host }
    requires guest { IsNewEnd GuestSide (pages_on plan.kind plan.window) guest }
    requires host { IsNewEnd HostSide (pages_on plan.kind plan.window) host }
    ensures made { IfOk result (λ r. AreMadeAt (side_that_asks plan.kind) (planned plan asks.items) seat r.0 r.1) }
    ensures pair { IfOk result (λ r. ArePair r.0 r.1) }
    ensures ends { IfOk result (λ r. ((end_at r.0).state ≡ guest.state) × ((end_at r.1).state ≡ host.state)) }
{
    let asks_at = side_that_asks(plan.kind);
    let (guest_seat, guest_asks, host_seat, host_asks) = deal(alloc, asks_at, seat, asks);
    let guest = match make_worker(alloc, Side::Guest, guest, guest_seat, plan, guest_asks) {
        Ok(guest) => guest,
        Err(refused) => {
            drop(host);
            drop(host_seat);
            drop(host_asks);
            return Err(refused);
        }
    };
    match make_worker(alloc, Side::Host, host, host_seat, plan, host_asks) {
        Ok(host) => Ok((GuestWorker::over(guest), HostWorker::over(host))),
        Err(refused) => {
            drop(guest);
            Err(refused)
        }
    }
}
