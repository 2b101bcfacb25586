//! The channels of a phase are closed.
ghost use Rattle.std.specs.Prelude.{◌≡◌, ◌+◌, ◌<◌, ◌++◌, ◌∷◌, [], ℕ, List, length, map, Some, IfOk, OnOk};
ghost use Rattle.std.specs.Vec.Iter.{into_iter_items};
ghost use Rattle.bus_model.specs.Orders.{Order as OneOrder};
ghost use Rattle.device_any.specs.Seats.{kind_at, served_at};
ghost use Rattle.bus_threads.specs.Pairs.{RanPair};
ghost use Rattle.bus_threads.specs.declared.pair.PairDone.{PairDone as OneDone};
ghost use Rattle.device_any.specs.declared.device_seat.DeviceSeat.{DeviceSeat as OneSeat};
ghost use Rattle.device_any.specs.Boxes.{kind_in};
ghost use Rattle.device_any.specs.declared.device_box.DeviceBox.{DeviceBox as OneBox};
ghost use Rattle.bus_run.specs.Opening.{Given};
ghost use Rattle.bus_run.specs.Opened.{HaveLeft};
ghost use Rattle.bus_run.specs.Closing.{AllBack, AllCome, AllClosed, AreWhole, ChannelClosed, ChannelEnded};

use crate::due::Due;
use bus_model::ChannelRun;
use bus_plan::{ChannelOutcomes, Outcomes};
use bus_threads::{PairDone, serving_seat};
use device_any::{DeviceBox, DeviceSeat};
use ring_seat::Settled;
use std::alloc::{AllocError, Global};
use std::vec::IntoIter;

/// What a channel carried, its seat, and the outcomes of its requests, of which there are so many: nothing is copied.
fn end_channel(asked: usize, done: PairDone) -> (Settled, DeviceSeat, ChannelOutcomes)
    requires { (order : OneOrder) × (first : OneSeat) × (length order.asks ≡ asked) × RanPair order first done }
    ensures ended { (order : OneOrder) (first : OneSeat) → length order.asks ≡ asked → RanPair order first done → ChannelEnded order first result.0 result.1 result.2 }
    ensures settled { result.0 ≡ done.settled }
{
    let (settled, guest_seat, host_seat, serials, replies) = done.into_parts();
    let Some(seat) = serving_seat(guest_seat, host_seat) else {
        unreachable!();
    };
    (settled, seat, ChannelOutcomes::of(asked, serials, replies))
}

// The room that lists have left goes back to the allocator where another phase follows: the lists of its channels find their place there. Behind the last
// phase nobody wants it, and the copies that it costs would be for nothing.
fn make_place(lists: &mut Settled, is_last: bool) -> Result<(), AllocError>
    ensures { lists.new ≡ lists.old }
{
    if is_last { Ok(()) } else { lists.trim() }
}

/// What a channel carried stands behind the runs before.
fn keep_lists(
    phase: u32,
    is_last: bool,
    due: &Due,
    mut lists: Settled,
    settled: &mut Vec<ChannelRun>,
) -> Result<(), AllocError>
    ensures { OnOk result (settled.new.items ≡ settled.old.items ++ record { phase = phase; relid = due.now.opening.relid; device = due.now.opening.device; settled = lists } ∷ []) }
{
    let Ok(()) = make_place(&mut lists, is_last) else {
        drop(lists);
        return Err(AllocError);
    };
    settled.push(ChannelRun {
        phase,
        relid: due.opening.relid,
        device: due.opening.device,
        settled: lists,
    })?;
    Ok(())
}

/// Closes a channel: what it carried stands behind the runs before, its seat is given back, and the answer is the outcomes of its requests. `is_last` says that
/// no phase follows.
fn close_channel(
    phase: u32,
    is_last: bool,
    due: &Due,
    own: &mut DeviceBox,
    dones: &mut IntoIter<PairDone>,
    settled: &mut Vec<ChannelRun>,
) -> Result<ChannelOutcomes, AllocError>
    requires { (order : OneOrder) × (first : OneSeat) × (done : OneDone) × (rest : List OneDone) × (length order.asks ≡ due.now.count) × (kind_in own.old ≡ Some (kind_at first)) × (into_iter_items dones.old ≡ done ∷ rest) × RanPair order first done }
    ensures closed { IfOk result (λ results. (order : OneOrder) (first : OneSeat) (done : OneDone) (rest : List OneDone) → length order.asks ≡ due.now.count → into_iter_items dones.old ≡ done ∷ rest → RanPair order first done
        → ChannelClosed phase due.now.opening order first own.old own.new settled.old.items settled.new.items results) }
    ensures carried { OnOk result ((done : OneDone) (rest : List OneDone) → into_iter_items dones.old ≡ done ∷ rest → settled.new.items ≡ settled.old.items ++ record { phase = phase; relid = due.now.opening.relid; device = due.now.opening.device; settled = done.settled } ∷ []) }
    ensures rest { OnOk result ((done : OneDone) (rest : List OneDone) → into_iter_items dones.old ≡ done ∷ rest → into_iter_items dones.new ≡ rest) }
{
    let Some(done) = dones.next() else {
        unreachable!();
    };
    let (lists, seat, outcomes) = end_channel(due.count, done);
    let Ok(()) = own.give_back(seat) else {
        drop(lists);
        drop(outcomes);
        return Err(AllocError);
    };
    let Ok(()) = keep_lists(phase, is_last, due, lists, settled) else {
        drop(outcomes);
        return Err(AllocError);
    };
    Ok(outcomes)
}

/// Closes all channels of a phase, which may be the last one, and answers the outcomes of their requests.
pub fn close_all(
    alloc: Global,
    phase: u32,
    is_last: bool,
    dues: &[Due],
    done: Vec<PairDone>,
    boxes: &mut Vec<DeviceBox>,
    settled: &mut Vec<ChannelRun>,
) -> Result<Outcomes, AllocError>
    requires { (old : List OneBox) × (given : List Given) × AllCome dues.now old given boxes.old.items done.items }
    ensures closed { IfOk result (λ outcomes. (old : List OneBox) (given : List Given) → AllCome dues.now old given boxes.old.items done.items → AllClosed phase old given boxes.old.items boxes.new.items settled.old.items settled.new.items outcomes) }
    ensures left { OnOk result (HaveLeft settled.old.items settled.new.items done.items) }
{
    let mut dones = done.into_iter();
    let mut outcomes = Outcomes::make(alloc, boxes.len())?;
    for due in dues {
        let at = due.opening.device as usize;
        let channel = close_channel(phase, is_last, due, &mut boxes[at], &mut dones, settled)?;
        outcomes.push(at, channel)?;
    }
    Ok(outcomes)
}

/// Closes the histories of all devices, once their channels are closed: each device is whole again.
pub fn unite_all(boxes: &mut Vec<DeviceBox>)
    requires { (old : List OneBox) × (quotas : ℕ → List ℕ) × (given : ℕ → List OneSeat) × AllBack old quotas given boxes.old.items }
    ensures { (old : List OneBox) (quotas : ℕ → List ℕ) (given : ℕ → List OneSeat) → AllBack old quotas given boxes.old.items → AreWhole old boxes.old.items boxes.new.items }
{
    for device in 0..boxes.len() {
        boxes[device].unite();
    }
}
