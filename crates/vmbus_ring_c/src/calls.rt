//! The calls of an end: begin one, then make the next step and feed what it gave, until none is left. Each tests the end's numbers first, so that any are safe: where
//! they aren't those of an end, a call answers false and changes nothing.
ghost use Rattle.std.specs.Prelude.{◌≡◌, ◌+◌, ◌/◌, ◌*◌, ◌<◌, ◌≤◌, true, false, Some, None, IfSome, slice_index_or};
ghost use Rattle.ring_machine.specs.PageCalls.{core_pages};
ghost use Rattle.ring_machine.specs.Places.{IsRingSize};
ghost use Rattle.ring_machine.specs.Steps.{machine_new, send_begun, take_begun, commit_begun, arm_begun, poll_begun, mark_begun, peer_mark_begun, is_busy_at, next_of, fed};
ghost use Rattle.ring_machine.specs.declared.place.Op.{Op as AnOp};
ghost use Rattle.io_edge.specs.declared.side.Side.TheVariants.{Guest as GuestSide};
ghost use Rattle.vmbus_ring_c.specs.Numbers.{sides};
ghost use Rattle.vmbus_ring_c.specs.Ends.{CanBegin, CanPoll, IsEnd, IsEndOf, MayWant, machine_of, step_of};

use crate::end::VmbusEnd;
use crate::machine::{core, numbers};
use crate::numbers::side;
use crate::step::{VmbusStep, step};
use ring_machine::{EndCore, Stage};

// The end, where it can begin a call other than a poll.
fn ready(end: &VmbusEnd) -> Option<EndCore>
    ensures some { IfSome result (λ c. CanBegin end.now × (c.machine ≡ machine_of end.now) × (c.pages ≡ core_pages 0)) }
    ensures none { result ≡ None → CanBegin end.now → ⊥ }
{
    match core(end) {
        Some(core) => {
            if !matches!(core.machine.stage, Stage::Idle)
                || core.machine.asleep
                || core.machine.marked
            {
                return None;
            }
            Some(core)
        }
        None => None,
    }
}

// The end, where it can begin a poll.
fn asleep(end: &VmbusEnd) -> Option<EndCore>
    ensures some { IfSome result (λ c. CanPoll end.now × (c.machine ≡ machine_of end.now) × (c.pages ≡ core_pages 0)) }
    ensures none { result ≡ None → CanPoll end.now → ⊥ }
{
    match core(end) {
        Some(core) => {
            if !matches!(core.machine.stage, Stage::Idle) || !core.machine.asleep {
                return None;
            }
            Some(core)
        }
        None => None,
    }
}

// Whether these are the bytes of data of a ring.
fn is_ring_size(d: u32) -> bool
    ensures yes { result ≡ true → IsRingSize d }
    ensures no { result ≡ false → IsRingSize d → ⊥ }
{
    d % 4096 == 0 && 4096 <= d && d <= 134217728
}

/// Makes a new end of a channel whose rings have `d` bytes of data: a multiple of 4,096 from 4,096 to 134,217,728. `host` 1 is the host's end, and 0 the guest's. False,
/// and then nothing is written, exactly where `d` or `host` is another number.
#[unsafe(no_mangle)]
pub extern "C" fn vmbus_end_make(end: &mut VmbusEnd, host: u32, d: u32) -> bool
    ensures made { result ≡ true → IsRingSize d × (host < 2) × IsEndOf (machine_new (slice_index_or sides host GuestSide) (d / 8)) end.new }
    ensures refused { result ≡ false → end.new ≡ end.old }
    ensures only { IsRingSize d → host < 2 → result ≡ true }
{
    if !is_ring_size(d) || host > 1 {
        return false;
    }
    *end = numbers(&EndCore::make(side(host), d, 0));
    true
}

/// Begins a send of a packet of so many words. False exactly where the end can't begin one (it is stopped, asleep, marked or inside a call, or its numbers aren't those of
/// an end), or the packet has less than two words or doesn't fit.
#[unsafe(no_mangle)]
pub extern "C" fn vmbus_end_begin_send(end: &mut VmbusEnd, len: u32) -> bool
    ensures begun { result ≡ true → CanBegin end.old × (2 ≤ len) × (len + 1 < end.old.cells) × IsEndOf (send_begun (machine_of end.old) len) end.new }
    ensures refused { result ≡ false → end.new ≡ end.old }
    ensures only { CanBegin end.old → 2 ≤ len → len + 1 < end.old.cells → result ≡ true }
{
    let Some(mut core) = ready(end) else {
        return false;
    };
    if len < 2 || len >= core.machine.cells - 1 {
        return false;
    }
    core.begin_send(len);
    *end = numbers(&core);
    true
}

/// Begins a take. False exactly where the end can't begin one.
#[unsafe(no_mangle)]
pub extern "C" fn vmbus_end_begin_take(end: &mut VmbusEnd) -> bool
    ensures begun { result ≡ true → CanBegin end.old × IsEndOf (take_begun (machine_of end.old)) end.new }
    ensures refused { result ≡ false → end.new ≡ end.old }
    ensures only { CanBegin end.old → result ≡ true }
{
    let Some(mut core) = ready(end) else {
        return false;
    };
    core.begin_take();
    *end = numbers(&core);
    true
}

/// Begins to give back the room of all packets that were taken. False exactly where the end can't begin that.
#[unsafe(no_mangle)]
pub extern "C" fn vmbus_end_begin_commit(end: &mut VmbusEnd) -> bool
    ensures begun { result ≡ true → CanBegin end.old × IsEndOf (commit_begun (machine_of end.old)) end.new }
    ensures refused { result ≡ false → end.new ≡ end.old }
    ensures only { CanBegin end.old → result ≡ true }
{
    let Some(mut core) = ready(end) else {
        return false;
    };
    core.begin_commit();
    *end = numbers(&core);
    true
}

/// Begins to take the signal of an end that is asleep. False exactly where it isn't asleep, is inside a call, or its numbers aren't those of an end.
#[unsafe(no_mangle)]
pub extern "C" fn vmbus_end_begin_poll(end: &mut VmbusEnd) -> bool
    ensures begun { result ≡ true → CanPoll end.old × IsEndOf (poll_begun (machine_of end.old)) end.new }
    ensures refused { result ≡ false → end.new ≡ end.old }
    ensures only { CanPoll end.old → result ≡ true }
{
    let Some(mut core) = asleep(end) else {
        return false;
    };
    core.begin_poll();
    *end = numbers(&core);
    true
}

/// Begins to say that this end sends nothing more. False exactly where the end can't begin that.
#[unsafe(no_mangle)]
pub extern "C" fn vmbus_end_begin_mark(end: &mut VmbusEnd) -> bool
    ensures begun { result ≡ true → CanBegin end.old × IsEndOf (mark_begun (machine_of end.old)) end.new }
    ensures refused { result ≡ false → end.new ≡ end.old }
    ensures only { CanBegin end.old → result ≡ true }
{
    let Some(mut core) = ready(end) else {
        return false;
    };
    core.begin_mark();
    *end = numbers(&core);
    true
}

/// Begins to look for the peer's mark. False exactly where the end can't begin that.
#[unsafe(no_mangle)]
pub extern "C" fn vmbus_end_begin_peer_mark(end: &mut VmbusEnd) -> bool
    ensures begun { result ≡ true → CanBegin end.old × IsEndOf (peer_mark_begun (machine_of end.old)) end.new }
    ensures refused { result ≡ false → end.new ≡ end.old }
    ensures only { CanBegin end.old → result ≡ true }
{
    let Some(mut core) = ready(end) else {
        return false;
    };
    core.begin_peer_mark();
    *end = numbers(&core);
    true
}

/// Begins to arm the signal, for packets, and for more room than `want` bytes where that isn't 0. False exactly where the end can't begin that, where it hasn't committed all
/// that it took, or where `want` is 1 to 23 or not below the bytes of the ring.
#[unsafe(no_mangle)]
pub extern "C" fn vmbus_end_begin_arm(end: &mut VmbusEnd, want: u32) -> bool
    ensures begun { result ≡ true → CanBegin end.old × (end.old.start ≡ end.old.read) × MayWant end.old want × IsEndOf (arm_begun (machine_of end.old) want) end.new }
    ensures refused { result ≡ false → end.new ≡ end.old }
    ensures only { CanBegin end.old → end.old.start ≡ end.old.read → MayWant end.old want → result ≡ true }
{
    let Some(mut core) = ready(end) else {
        return false;
    };
    if core.machine.start != core.machine.read {
        return false;
    }
    if want == 0 {
        core.begin_arm(None);
    } else {
        if want < 24 || want >= 8 * core.machine.cells {
            return false;
        }
        core.begin_arm(Some(want));
    }
    *end = numbers(&core);
    true
}

/// The next step of the call under way, where `packet` is what is being sent, and empty otherwise. False exactly where no call is under way, or the end's numbers aren't
/// those of an end, and then nothing is written.
#[unsafe(no_mangle)]
pub extern "C" fn vmbus_end_next(end: &VmbusEnd, packet: &[u64], out: &mut VmbusStep) -> bool
    ensures names { IsEnd end.now → (op : AnOp) → next_of (machine_of end.now) packet.now ≡ Some op → (result ≡ true) × (out.new ≡ step_of op) }
    ensures only { result ≡ true → IsEnd end.now × (is_busy_at (machine_of end.now).stage ≡ true) }
    ensures none { result ≡ false → out.new ≡ out.old }
{
    let Some(core) = core(end) else {
        return false;
    };
    match core.next(packet) {
        Some(op) => {
            *out = step(op);
            true
        }
        None => false,
    }
}

/// Takes what the step gave: the value that it loaded or exchanged, or anything for a store. False exactly where no call is under way, or the end's numbers aren't those
/// of an end, and then nothing changes.
#[unsafe(no_mangle)]
pub extern "C" fn vmbus_end_feed(end: &mut VmbusEnd, value: u64) -> bool
    ensures fed { result ≡ true → IsEnd end.old × (is_busy_at (machine_of end.old).stage ≡ true) × IsEndOf (fed (machine_of end.old) value) end.new }
    ensures refused { result ≡ false → end.new ≡ end.old }
    ensures only { IsEnd end.old → is_busy_at (machine_of end.old).stage ≡ true → result ≡ true }
{
    let Some(mut core) = core(end) else {
        return false;
    };
    if !core.is_busy() {
        return false;
    }
    core.feed(value);
    *end = numbers(&core);
    true
}
