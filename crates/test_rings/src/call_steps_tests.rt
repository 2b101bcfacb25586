//! Arms, polls and marks over told memory, step by step, and how the last command of an end ended while a later one is under way, beside answers that
//! were worked out by hand.
ghost use Rattle.std.specs.Prelude.{◌≡◌, ◌<◌, ◌≤◌, false, IsTrue};
ghost use Rattle.ring_machine.specs.Places.{IsPlaceOf};
ghost use Rattle.ring_machine.specs.Endings.{IsWant};
ghost use Rattle.ring_machine.specs.PageCalls.{IsQuiet};
ghost use Rattle.ring_machine.specs.declared.machine.Stage.TheVariants.{Idle};

use crate::check::check;
use ring_core::{Armed, Change, End, EndCore, Last, Place, Ring, Side, Signalled, Stage, ToldMem};
use ring_machine::{Due, PageCall};
use std::alloc::AllocGlobal;
use std::process::Abort;

// The guest's end over a told memory of one page whose ring to the host has 4,000 bytes of room for an end that sent nothing, and that a peer changes once.
fn guest(rt: &(impl Abort + AllocGlobal), step: u64, place: Place, value: u64) -> End<ToldMem>
    requires { IsPlaceOf 512 0 place }
    ensures size { result.state.machine.cells ≡ 512 }
    ensures committed { result.state.machine.start ≡ result.state.machine.read }
    ensures bare { result.state.pages.count ≡ 0 }
{
    let mut changes = Vec::new(rt.alloc());
    changes
        .push(Change { step, place, value })
        .expect(rt, "memory");
    let mut told = ToldMem::make(rt.alloc(), 4096, changes, 0).expect(rt, "memory");
    told.put(Place::Read(Ring::ToHost), 4000);
    End::make(rt.alloc(), Side::Guest, 4096, told, 0).expect(rt, "memory")
}

// Whether the end made so many steps, and the words by which its peer knows whether to signal it are these: pending, mask and signal.
fn is_at(e: &End<ToldMem>, steps: u64, pending: u64, mask: u64, signal: u64) -> bool {
    let seat = e.seat();
    seat.steps() == steps
        && seat.look(Place::Pending(Ring::ToHost)) == pending
        && seat.look(Place::Mask(Ring::ToGuest)) == mask
        && seat.look(Place::Signal(Side::Guest)) == signal
}

// An arm answers so, after so many steps, and leaves these words.
fn arms(
    rt: &impl Abort,
    e: &mut End<ToldMem>,
    want: Option<u32>,
    how: Armed,
    steps: u64,
    pending: u64,
    mask: u64,
)
    requires want { IsWant e.old.state.machine.cells want }
    requires committed { e.old.state.machine.start ≡ e.old.state.machine.read }
    requires bare { e.old.state.pages.count ≡ 0 }
    ensures { e.new.state.machine.stage ≡ Idle }
{
    check(rt, e.is_ready());
    let armed = e.arm(want);
    check(rt, armed == how);
    check(rt, is_at(e, steps, pending, mask, 0));
}

// A poll of an end that is asleep answers so, after so many steps, and leaves these words. It is asleep still where its signal is down.
fn polls(rt: &impl Abort, e: &mut End<ToldMem>, up: bool, steps: u64, pending: u64, mask: u64)
    requires { e.old.state.machine.stage ≡ Idle }
    ensures { e.new.state.machine.stage ≡ Idle }
{
    check(rt, e.is_asleep());
    let found = e.poll_signal();
    check(rt, found == up);
    check(rt, is_at(e, steps, pending, mask, 0));
    check(rt, e.is_asleep() != up);
}

// It stores pending and mask 0, looks for packets, for more room than it wants, and for the peer's mark. The signal comes up before the seventh step.
#[test]
fn an_end_that_finds_no_room_sleeps_till_its_signal(rt: HostRuntime) {
    let mut e = guest(&rt, 7, Place::Signal(Side::Guest), 1);
    arms(&rt, &mut e, Some(4000), Armed::Asleep, 5, 4000, 0);
    polls(&rt, &mut e, false, 6, 4000, 0);
    polls(&rt, &mut e, true, 9, 0, 1);
    check(&rt, e.is_ready());
    drop(e);
}

// One that wants no room stores no pending, neither where it arms nor where it wakes.
#[test]
fn an_end_that_wants_no_room_leaves_pending_out(rt: HostRuntime) {
    let mut e = guest(&rt, 4, Place::Signal(Side::Guest), 1);
    arms(&rt, &mut e, None, Armed::Asleep, 3, 0, 0);
    polls(&rt, &mut e, true, 5, 0, 1);
    check(&rt, e.is_ready());
    drop(e);
}

// A look finds what its peer changes before this step, and what was armed is undone: the end is awake after so many steps. Whether it saw the mark.
fn is_kept_awake(
    rt: &(impl Abort + AllocGlobal),
    step: u64,
    place: Place,
    value: u64,
    steps: u64,
) -> bool
    requires { IsPlaceOf 512 0 place }
{
    let mut e = guest(rt, step, place, value);
    arms(rt, &mut e, Some(4000), Armed::Work, steps, 0, 1);
    check(rt, e.is_ready());
    let seen = e.saw_mark();
    drop(e);
    seen
}

// The look for packets is the third step, that for room the fourth, where 8 bytes more than are wanted are room, and that for the mark the fifth and last.
// Two more undo what was armed.
#[test]
fn packets_room_and_the_peers_mark_keep_an_end_awake(rt: HostRuntime) {
    let packets = is_kept_awake(&rt, 3, Place::Write(Ring::ToGuest), 96, 5);
    let room = is_kept_awake(&rt, 4, Place::Read(Ring::ToHost), 4008, 6);
    let mark = is_kept_awake(&rt, 5, Place::Mark(Side::Host), 1, 7);
    check(&rt, !packets && !room && mark);
}

// A look for the mark answers so, after so many steps.
fn looks(rt: &impl Abort, e: &mut End<ToldMem>, up: bool, steps: u64) {
    check(rt, e.is_ready());
    let seen = e.peer_mark();
    check(rt, seen == up);
    check(rt, is_at(e, steps, 0, 1, 0));
}

// A look for the mark is one step, and so finds it from the second on. A mark is two: it is stored, and the peer's signal is raised.
#[test]
fn an_end_sees_a_mark_and_marks_itself(rt: HostRuntime) {
    let mut e = guest(&rt, 2, Place::Mark(Side::Host), 1);
    looks(&rt, &mut e, false, 1);
    looks(&rt, &mut e, true, 2);
    check(&rt, e.is_ready() && !e.is_due());
    e.mark();
    check(&rt, e.is_marked() && is_at(&e, 4, 0, 1, 0));
    let seat = e.seat();
    check(
        &rt,
        seat.look(Place::Mark(Side::Guest)) == 1 && seat.look(Place::Signal(Side::Host)) == 1,
    );
    drop(e);
}

// Feeds a machine these answers to its next steps, as long as its command is under way.
fn feed(core: &mut EndCore, answers: &[u64]) {
    for v in answers {
        if core.is_busy() {
            core.feed(*v);
        }
    }
}

// Whether an end of one page can begin a command.
fn is_idle(core: &EndCore) -> bool
    ensures machine { IsTrue result → (core.now.machine.stage ≡ Idle) × (core.now.machine.asleep ≡ false) × (core.now.machine.marked ≡ false) × (core.now.machine.cells ≡ 512) }
    ensures pages { IsTrue result → IsQuiet core.now.pages }
{
    let m = &core.machine;
    let quiet = matches!(core.pages.call, PageCall::Off) && matches!(core.pages.due, Due::Clear);
    matches!(m.stage, Stage::Idle) && !m.asleep && !m.marked && m.cells == 512 && quiet
}

// Where the last command ended so, begins a send of a packet of so many words: that leaves it as it is.
fn sends(rt: &impl Abort, core: &mut EndCore, last: Last, len: u32)
    requires { (2 ≤ len) × (len < 500) }
{
    check(rt, is_idle(core) && core.last() == last);
    core.begin_send(len);
    check(rt, core.is_busy() && core.last() == last);
}

fn takes(rt: &impl Abort, core: &mut EndCore, last: Last) {
    check(rt, is_idle(core) && core.last() == last);
    core.begin_take();
    check(rt, core.is_busy() && core.last() == last);
}

fn commits(rt: &impl Abort, core: &mut EndCore, last: Last) {
    check(rt, is_idle(core) && core.last() == last);
    core.begin_commit();
    check(rt, core.is_busy() && core.last() == last);
}

// These answers leave the command under way, and what is told of the last one as it was.
fn goes_on(rt: &impl Abort, core: &mut EndCore, answers: &[u64], last: Last) {
    feed(core, answers);
    check(rt, core.is_busy() && core.last() == last);
}

// A ring that has 8 bytes of room has too little for a packet of 2 words. Neither a take and its steps nor a later send changes what is told of it.
#[test]
fn a_refused_send_is_told_till_the_next_command_ends(rt: HostRuntime) {
    let full = Last::Full { free: 8, need: 24 };
    let mut core = EndCore::make(Side::Guest, 4096, 0);
    sends(&rt, &mut core, Last::Fresh, 2);
    feed(&mut core, &[8]);
    takes(&rt, &mut core, full);
    goes_on(&rt, &mut core, &[96, 0x0000_0003_0002_0006, 1], full);
    feed(&mut core, &[2]);
    sends(&rt, &mut core, Last::Took { words: 3 }, 2);
    feed(&mut core, &[8]);
    sends(&rt, &mut core, full, 3);
    // The read index that it loads now leaves room, and its cells, its trailer and the write index are stored.
    goes_on(&rt, &mut core, &[0, 0, 0, 0, 0, 0], full);
    feed(&mut core, &[1]);
    check(&rt, !core.is_busy() && core.last() != full);
}

// A packet of 3 words was taken: the commit under way, and the next take, leave that as it is.
#[test]
fn a_taken_packet_is_told_till_the_next_command_ends(rt: HostRuntime) {
    let took = Last::Took { words: 3 };
    let mut core = EndCore::make(Side::Host, 4096, 0);
    takes(&rt, &mut core, Last::Fresh);
    feed(&mut core, &[96, 0x0000_0003_0002_0006, 1, 2]);
    commits(&rt, &mut core, took);
    goes_on(&rt, &mut core, &[0, 1], took);
    feed(&mut core, &[0]);
    check(&rt, core.last() != took);
    takes(&rt, &mut core, Last::Committed(Signalled::Quiet));
    feed(&mut core, &[32]);
    check(
        &rt,
        !core.is_busy() && core.last() == Last::Empty { at: 32 },
    );
}
