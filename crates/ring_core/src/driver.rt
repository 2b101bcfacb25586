//! The drivers of a call: the loops that make its steps.
ghost use Rattle.std.specs.Prelude.{◌≡◌, ◌<◌, true, false, [], ◌∷◌, length, Some, None};
ghost use Rattle.ring_core.specs.Drives.{CanStep, StepLeaves};
ghost use Rattle.ring_core.specs.Going.{MayGo, Goes};
ghost use Rattle.ring_machine.specs.Loops.{Keeps, SendKeeps, TakeKeeps, CommitKeeps};
ghost use Rattle.ring_machine.specs.States.{stored};
ghost use Rattle.ring_machine.specs.Steps.{is_busy_at, is_copying_at, call_at};
ghost use Rattle.ring_core.specs.Told.{HeardJust, Memory, memory_after, answer_of, told_page};
ghost use Rattle.ring_core.specs.declared.told.Told.{Told};
ghost use Rattle.ring_machine.specs.declared.place.Op.{Op};
ghost use Rattle.ring_machine.specs.PageCalls.{is_paging, page_op, pages_fed, ContinuesPage};

use crate::seat::Seatlike;
use ring_machine::{EndCore, Stage};

// The step at this stage loads a word of a packet.
#[inline(always)]
fn is_copying(stage: Stage) -> bool
    ensures { result ≡ is_copying_at stage }
{
    matches!(stage, Stage::TakeFirst | Stage::TakeCell)
}

// Copies a word into the buffer where the step loaded one of a packet.
#[inline(always)]
fn store_where(copies: bool, buf: &mut Vec<u64>, i: usize, v: u64)
    requires { i < length buf.old.items }
    ensures items { buf.new.items ≡ stored copies buf.old.items i v }
    ensures len { length buf.new.items ≡ length buf.old.items }
{
    if copies {
        buf[i] = v;
    }
}

/// Makes the one step that the machine names, by the seat, feeds the machine what it gave, and answers that. A word of a packet that was loaded goes into the
/// buffer, at its place in the packet. A driver is a loop over this while the machine is busy.
#[inline(always)]
pub fn step<S: Seatlike>(
    seat: &mut S,
    core: &mut EndCore,
    buf: &mut Vec<u64>,
    packet: &[u64],
) -> u64
    requires { CanStep S.cells S.told seat.old core.old buf.old.items packet.now }
    ensures { StepLeaves S.cells S.told S.tale S.same seat.old seat.new core.old core.new buf.old.items buf.new.items packet.now result }
{
    let v = seat.perform(core, packet);
    let copies = is_copying(core.machine.stage);
    store_where(copies, buf, core.machine.done as usize, v);
    core.feed(v);
    v
}

/// Makes the one step of the page call that the machine is in, by the seat, feeds the machine what it gave, and answers that.
#[inline(always)]
pub fn page_step<S: Seatlike>(seat: &mut S, core: &mut EndCore) -> u64
    requires rests { is_busy_at core.old.machine.stage ≡ false }
    requires call { is_paging core.old.pages.call ≡ true }
    requires fits { S.cells seat.old ≡ core.old.machine.cells }
    requires pages { S.pages seat.old ≡ core.old.pages.count }
    requires goes_on { (u : Told) → S.told seat.old ≡ Some u → ContinuesPage u.state core.old.pages.call }
    ensures machine { core.new.machine ≡ core.old.machine }
    ensures fed { core.new.pages ≡ pages_fed core.old.pages }
    ensures runs { (m : Memory) (op : Op) → (S.tale seat.old).memory ≡ Some m → page_op core.old.pages.call ≡ Some op → ((S.tale seat.new).memory ≡ Some (memory_after core.old.machine.cells op m)) × (result ≡ answer_of core.old.machine.cells op m) }
    ensures hears { HeardJust (S.tale seat.old) (S.tale seat.new) (result ∷ []) }
    ensures same { S.same seat.old seat.new }
    ensures cells { S.cells seat.new ≡ S.cells seat.old }
    ensures silent { S.told seat.old ≡ None → S.told seat.new ≡ None }
    ensures tells { (u : Told) → S.told seat.old ≡ Some u → S.told seat.new ≡ Some (told_page u core.old.pages.call result) }
{
    let v = seat.perform(core, &[]);
    core.feed_page();
    v
}

// As `step`, for the steps that are rare: it stands apart, so that the drivers stay small.
#[inline(never)]
fn step_apart<S: Seatlike>(
    seat: &mut S,
    core: &mut EndCore,
    buf: &mut Vec<u64>,
    packet: &[u64],
) -> u64
    requires { CanStep S.cells S.told seat.old core.old buf.old.items packet.now }
    ensures { StepLeaves S.cells S.told S.tale S.same seat.old seat.new core.old core.new buf.old.items buf.new.items packet.now result }
{
    step(seat, core, buf, packet)
}

// Whether a stage is this one, which is one of those that have a loop of their own. Where it is written out, the compiler knows the stage in such a loop, so that a step is a few instructions.
#[inline(always)]
fn is_at(stage: Stage, at: Stage) -> bool
    ensures same { result ≡ true → stage ≡ at }
    ensures busy { result ≡ true → is_busy_at at ≡ true }
{
    matches!(
        (stage, at),
        (Stage::SendRead, Stage::SendRead)
            | (Stage::SendCell, Stage::SendCell)
            | (Stage::SendWrite, Stage::SendWrite)
            | (Stage::SendMask, Stage::SendMask)
            | (Stage::TakeWrite, Stage::TakeWrite)
            | (Stage::TakeFirst, Stage::TakeFirst)
            | (Stage::TakeCell, Stage::TakeCell)
            | (Stage::CommitRead, Stage::CommitRead)
            | (Stage::CommitFeature, Stage::CommitFeature)
            | (Stage::CommitPending, Stage::CommitPending)
            | (Stage::ArmPending, Stage::ArmPending)
            | (Stage::ArmMask, Stage::ArmMask)
            | (Stage::ArmWrite, Stage::ArmWrite)
            | (Stage::ArmRead, Stage::ArmRead)
            | (Stage::ArmMark, Stage::ArmMark)
            | (Stage::PollSignal, Stage::PollSignal)
            | (Stage::PollMask, Stage::PollMask)
            | (Stage::SendLook, Stage::SendLook)
            | (Stage::SendRaise, Stage::SendRaise)
    )
}

// Makes steps while the machine stands at this stage.
#[inline(always)]
fn steps_at<S: Seatlike>(
    seat: &mut S,
    core: &mut EndCore,
    buf: &mut Vec<u64>,
    packet: &[u64],
    at: Stage,
)
    requires may { MayGo S.told S.tale seat.old core.old.machine packet.now buf.old.items }
    requires fits { S.cells seat.old ≡ core.old.machine.cells }
    ensures goes { Goes S.cells S.told S.tale S.same seat.old seat.new core.old.machine core.new.machine packet.now buf.old.items buf.new.items }
    ensures may { MayGo S.told S.tale seat.new core.new.machine packet.now buf.new.items }
    ensures keeps { Keeps (call_at at) core.old.machine core.new.machine }
    ensures pages { core.new.pages ≡ core.old.pages }
{
    while is_at(core.machine.stage, at) {
        step(seat, core, buf, packet);
    }
}

// Makes steps until the call has ended.
#[inline(always)]
fn steps_on<S: Seatlike>(seat: &mut S, core: &mut EndCore, buf: &mut Vec<u64>, packet: &[u64])
    requires may { MayGo S.told S.tale seat.old core.old.machine packet.now buf.old.items }
    requires fits { S.cells seat.old ≡ core.old.machine.cells }
    ensures goes { Goes S.cells S.told S.tale S.same seat.old seat.new core.old.machine core.new.machine packet.now buf.old.items buf.new.items }
    ensures pages { core.new.pages ≡ core.old.pages }
    ensures idle { is_busy_at core.new.machine.stage ≡ false }
{
    while core.is_busy() {
        step_apart(seat, core, buf, packet);
    }
}

// Writes back the fields that the frequent steps of a send change, where the others are the same.
#[inline(always)]
fn send_back(to: &mut EndCore, from: &EndCore)
    requires keeps { SendKeeps to.old.machine from.now.machine }
    requires call { is_paging to.old.pages.call ≡ false }
    ensures machine { to.new.machine ≡ from.now.machine }
    ensures pages { to.new.pages ≡ to.old.pages }
{
    to.machine.write = from.machine.write;
    to.machine.old = from.machine.old;
    to.machine.seen = from.machine.seen;
    to.machine.done = from.machine.done;
    to.machine.value = from.machine.value;
    to.machine.room = from.machine.room;
    to.machine.words = from.machine.words;
    to.machine.stage = from.machine.stage;
    to.machine.ended = from.machine.ended;
}

// Writes back the fields that the frequent steps of a take change, where the others are the same.
#[inline(always)]
fn take_back(to: &mut EndCore, from: &EndCore)
    requires keeps { TakeKeeps to.old.machine from.now.machine }
    requires call { is_paging to.old.pages.call ≡ false }
    ensures machine { to.new.machine ≡ from.now.machine }
    ensures pages { to.new.pages ≡ to.old.pages }
{
    to.machine.read = from.machine.read;
    to.machine.seen = from.machine.seen;
    to.machine.len = from.machine.len;
    to.machine.done = from.machine.done;
    to.machine.value = from.machine.value;
    to.machine.words = from.machine.words;
    to.machine.stage = from.machine.stage;
    to.machine.ended = from.machine.ended;
    to.machine.drained = from.machine.drained;
}

// Writes back the fields that the frequent steps of a commit change, where the others are the same.
#[inline(always)]
fn commit_back(to: &mut EndCore, from: &EndCore)
    requires keeps { CommitKeeps to.old.machine from.now.machine }
    requires call { is_paging to.old.pages.call ≡ false }
    ensures machine { to.new.machine ≡ from.now.machine }
    ensures pages { to.new.pages ≡ to.old.pages }
{
    to.machine.start = from.machine.start;
    to.machine.old = from.machine.old;
    to.machine.done = from.machine.done;
    to.machine.value = from.machine.value;
    to.machine.stage = from.machine.stage;
    to.machine.ended = from.machine.ended;
}

/// A driver: it makes the steps of the call that the machine has begun, and the words that a take loads go into the buffer. Each driver makes any
/// call. They differ only in which stages have loops of their own, the frequent ones of a send, a take and a commit over a copy of the machine that stays in
/// registers.
pub trait Driver<S: Seatlike> {
    ghost use Rattle.ring_core.specs.Drives.{CanDrive, DriveLeaves};

    /// Makes the steps of the call until it has ended. `buf` has a place for each cell of a ring; what is sent is `packet`, and else that is empty.
    fn drive(seat: &mut S, core: &mut EndCore, buf: &mut Vec<u64>, packet: &[u64])
        requires { CanDrive S.cells S.told seat.old core.old buf.old.items packet.now }
        ensures { DriveLeaves S.cells S.told S.tale S.same seat.old seat.new core.old core.new buf.old.items buf.new.items packet.now };
}

/// For a send.
pub struct SendLoops;

impl<S: Seatlike> Driver<S> for SendLoops {
    #[inline(always)]
    fn drive(seat: &mut S, core: &mut EndCore, buf: &mut Vec<u64>, packet: &[u64]) {
        let mut fast = *core;
        steps_at(seat, &mut fast, buf, packet, Stage::SendRead);
        steps_at(seat, &mut fast, buf, packet, Stage::SendCell);
        steps_at(seat, &mut fast, buf, packet, Stage::SendWrite);
        steps_at(seat, &mut fast, buf, packet, Stage::SendMask);
        send_back(core, &fast);
        steps_at(seat, core, buf, packet, Stage::SendLook);
        steps_at(seat, core, buf, packet, Stage::SendRaise);
        steps_on(seat, core, buf, packet);
    }
}

/// For a take.
pub struct TakeLoops;

impl<S: Seatlike> Driver<S> for TakeLoops {
    #[inline(always)]
    fn drive(seat: &mut S, core: &mut EndCore, buf: &mut Vec<u64>, packet: &[u64]) {
        let mut fast = *core;
        steps_at(seat, &mut fast, buf, packet, Stage::TakeWrite);
        steps_at(seat, &mut fast, buf, packet, Stage::TakeFirst);
        steps_at(seat, &mut fast, buf, packet, Stage::TakeCell);
        take_back(core, &fast);
        steps_on(seat, core, buf, packet);
    }
}

/// For a commit.
pub struct CommitLoops;

impl<S: Seatlike> Driver<S> for CommitLoops {
    #[inline(always)]
    fn drive(seat: &mut S, core: &mut EndCore, buf: &mut Vec<u64>, packet: &[u64]) {
        let mut fast = *core;
        steps_at(seat, &mut fast, buf, packet, Stage::CommitRead);
        steps_at(seat, &mut fast, buf, packet, Stage::CommitFeature);
        steps_at(seat, &mut fast, buf, packet, Stage::CommitPending);
        commit_back(core, &fast);
        steps_on(seat, core, buf, packet);
    }
}

/// For an arm.
pub struct ArmLoops;

impl<S: Seatlike> Driver<S> for ArmLoops {
    #[inline(always)]
    fn drive(seat: &mut S, core: &mut EndCore, buf: &mut Vec<u64>, packet: &[u64]) {
        steps_at(seat, core, buf, packet, Stage::ArmPending);
        steps_at(seat, core, buf, packet, Stage::ArmMask);
        steps_at(seat, core, buf, packet, Stage::ArmWrite);
        steps_at(seat, core, buf, packet, Stage::ArmRead);
        steps_at(seat, core, buf, packet, Stage::ArmMark);
        steps_on(seat, core, buf, packet);
    }
}

/// For a poll.
pub struct PollLoops;

impl<S: Seatlike> Driver<S> for PollLoops {
    #[inline(always)]
    fn drive(seat: &mut S, core: &mut EndCore, buf: &mut Vec<u64>, packet: &[u64]) {
        steps_at(seat, core, buf, packet, Stage::PollSignal);
        steps_at(seat, core, buf, packet, Stage::PollMask);
        steps_on(seat, core, buf, packet);
    }
}

/// For the other calls.
pub struct PlainLoop;

impl<S: Seatlike> Driver<S> for PlainLoop {
    fn drive(seat: &mut S, core: &mut EndCore, buf: &mut Vec<u64>, packet: &[u64]) {
        steps_on(seat, core, buf, packet);
    }
}
