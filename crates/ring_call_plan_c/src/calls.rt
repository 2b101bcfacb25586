//! The calls. Each tests its own conditions, and answers a number: 0 where it doesn't fit the end's state or its numbers, and then nothing changed.
ghost use Rattle.std.specs.Prelude.{◌≡◌, ◌≢◌, ◌+◌, ◌/◌, ◌==◌, ℕ, true, false, List, cond, length, slice_index};
ghost use Rattle.io_edge.specs.declared.side.Side.{Side};
ghost use Rattle.ring_machine.specs.declared.machine.EndMachine.{EndMachine};
ghost use Rattle.ring_machine.specs.Places.{len8_of, cell_of};
ghost use Rattle.ring_machine.specs.States.{IsPacket};
ghost use Rattle.ring_machine.specs.Steps.{machine_new};
ghost use Rattle.ring_call_plan.specs.Answers.{no_call, planned};
ghost use Rattle.ring_call_plan.specs.Numbers.{is_size, begin_says, sent_says, take_says, head_says, commit_says, given_says, arm_says, armed_says, polled_says};
ghost use Rattle.ring_call_plan.specs.Plans.{SendBegun, SendInside, SendEnded, TakeBegun, TakeEnded, TakeInside, CommitBegun, CommitEnded, ArmBegun, ArmEnded, PollEnded, MarkSaid};
ghost use Rattle.ring_call_plan.specs.Shown.{Shows};

use ring_call_plan::{PlanEnd, SendPlan, TakePlan};

/// Makes a new end of a channel whose rings have `d` bytes of data, and answers true, where that is a multiple of 4,096 up to 128 MB. Otherwise nothing changes.
#[unsafe(no_mangle)]
pub extern "C" fn vmbus_plan_make(end: &mut PlanEnd, d: u32) -> bool
    ensures says { result ≡ is_size d }
    ensures unchanged { result ≡ false → end.new ≡ end.old }
    ensures machine { result ≡ true → (x : Side) → Shows end.new (machine_new x (d / 8)) }
{
    ring_call_plan::end_make(end, d)
}

/// Plans a send of a packet whose first word is `head`, where the peer's read index is `read`.
#[unsafe(no_mangle)]
pub extern "C" fn vmbus_send_plan(
    end: &mut PlanEnd,
    head: u64,
    read: u32,
    plan: &mut SendPlan,
) -> u32
    ensures says { result ≡ begin_says end.old head read }
    ensures unchanged { result ≡ no_call → end.new ≡ end.old }
    ensures kept { result ≢ planned → plan.new ≡ plan.old }
    ensures inside { result ≡ planned → SendInside end.old.cells end.old.write (cell_of read) (len8_of head) plan.new }
    ensures packet { result ≢ no_call → (p : List ℕ) → length p ≡ len8_of head → slice_index p 0 ≡ head → IsPacket p }
    ensures machine { (m : EndMachine) → Shows end.old m → result ≢ no_call → SendBegun m (len8_of head) read result end.new plan.new }
{
    ring_call_plan::send_plan(end, head, read, plan)
}

/// Ends a send whose stores are made, where the peer's mask is `mask`, and its read index is now `read`, which counts where mask is 0.
#[unsafe(no_mangle)]
pub extern "C" fn vmbus_send_done(end: &mut PlanEnd, mask: u32, read: u32) -> u32
    ensures says { result ≡ sent_says end.old mask read }
    ensures unchanged { result ≡ no_call → end.new ≡ end.old }
    ensures machine { (m : EndMachine) → Shows end.old m → result ≢ no_call → (ws : List ℕ) → length ws ≡ end.old.len + 2 → SendEnded m ws mask read result end.new }
{
    ring_call_plan::send_done(end, mask, read)
}

/// Begins a take, where the peer's write index is `write`: `at` is then the offset of the packet's first cell in bytes.
#[unsafe(no_mangle)]
pub extern "C" fn vmbus_take_plan(end: &mut PlanEnd, write: u32, at: &mut u32) -> u32
    ensures says { result ≡ take_says end.old write }
    ensures unchanged { result ≡ no_call → end.new ≡ end.old }
    ensures kept { result ≢ planned → at.new ≡ at.old }
    ensures machine { (m : EndMachine) → Shows end.old m → result ≢ no_call → TakeBegun m write result end.new at.new }
{
    ring_call_plan::take_plan(end, write, at)
}

/// Ends a take, where the packet's first cell is `head`: the caller loads the rest of the packet as planned, each word once.
#[unsafe(no_mangle)]
pub extern "C" fn vmbus_take_head(end: &mut PlanEnd, head: u64, plan: &mut TakePlan) -> u32
    ensures says { result ≡ head_says end.old head }
    ensures unchanged { result ≡ no_call → end.new ≡ end.old }
    ensures kept { result ≢ planned → plan.new ≡ plan.old }
    ensures inside { result ≡ planned → TakeInside end.old.cells end.old.read end.old.seen plan.new }
    ensures machine { (m : EndMachine) → Shows end.old m → result ≢ no_call → TakeEnded m head result end.new plan.new }
{
    ring_call_plan::take_head(end, head, plan)
}

/// Plans a commit of all packets that were taken: `index` is the read index to store.
#[unsafe(no_mangle)]
pub extern "C" fn vmbus_commit_plan(end: &mut PlanEnd, index: &mut u32) -> u32
    ensures says { result ≡ commit_says end.old }
    ensures unchanged { result ≡ no_call → end.new ≡ end.old }
    ensures kept { result ≢ planned → index.new ≡ index.old }
    ensures machine { (m : EndMachine) → Shows end.old m → result ≢ no_call → CommitBegun m end.new index.new }
{
    ring_call_plan::commit_plan(end, index)
}

/// Ends a commit whose read index is stored, where the peer's feature bits, its pending size and its write index are these. Pending counts where bit 0 of
/// feature is set, and write where pending isn't 0.
#[unsafe(no_mangle)]
pub extern "C" fn vmbus_commit_done(
    end: &mut PlanEnd,
    feature: u32,
    pending: u32,
    write: u32,
) -> u32
    ensures says { result ≡ given_says end.old feature pending write }
    ensures unchanged { result ≡ no_call → end.new ≡ end.old }
    ensures machine { (m : EndMachine) → Shows end.old m → result ≢ no_call → CommitEnded m feature pending write result end.new }
{
    ring_call_plan::commit_done(end, feature, pending, write)
}

/// Plans to arm the signal, for packets, and for more room than `want` bytes where that isn't 0: the caller stores it to pending, where it isn't 0, and 0 to mask.
#[unsafe(no_mangle)]
pub extern "C" fn vmbus_arm_plan(end: &mut PlanEnd, want: u32) -> u32
    ensures says { result ≡ arm_says end.old want }
    ensures unchanged { result ≡ no_call → end.new ≡ end.old }
    ensures machine { (m : EndMachine) → Shows end.old m → result ≢ no_call → ArmBegun m want end.new }
{
    ring_call_plan::arm_plan(end, want)
}

/// Ends an arm whose stores are made, where the peer's write index, its read index and its mark are these. The read index counts where the arm waits for room.
#[unsafe(no_mangle)]
pub extern "C" fn vmbus_arm_done(end: &mut PlanEnd, write: u32, read: u32, mark: u64) -> u32
    ensures says { result ≡ armed_says end.old write read mark }
    ensures unchanged { result ≡ no_call → end.new ≡ end.old }
    ensures machine { (m : EndMachine) → Shows end.old m → result ≢ no_call → (ws : List ℕ) → length ws ≡ cond (end.old.want == 0) 1 2 → ArmEnded end.old m ws write read mark result end.new }
{
    ring_call_plan::arm_done(end, write, read, mark)
}

/// Ends a look at the end's own signal, which the caller exchanged with 0 and found to be `signal`.
#[unsafe(no_mangle)]
pub extern "C" fn vmbus_poll_done(end: &mut PlanEnd, signal: u64) -> u32
    ensures says { result ≡ polled_says end.old signal }
    ensures unchanged { result ≡ no_call → end.new ≡ end.old }
    ensures machine { (m : EndMachine) → Shows end.old m → result ≢ no_call → PollEnded m signal result end.new }
{
    ring_call_plan::poll_done(end, signal)
}

/// Says that the end sends nothing more: the caller stores its mark, and then raises the peer's signal.
#[unsafe(no_mangle)]
pub extern "C" fn vmbus_mark_done(end: &mut PlanEnd) -> u32
    ensures says { result ≡ commit_says end.old }
    ensures unchanged { result ≡ no_call → end.new ≡ end.old }
    ensures machine { (m : EndMachine) → Shows end.old m → result ≢ no_call → MarkSaid m end.new }
{
    ring_call_plan::mark_done(end)
}
