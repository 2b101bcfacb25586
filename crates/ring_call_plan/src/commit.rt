//! Commits.
ghost use Rattle.std.specs.Prelude.{◌≡◌, ◌≢◌, ℕ, ◌+◌, ◌*◌, ◌<◌, ◌≤◌, ◌^◌, List, length};
ghost use Rattle.ring_machine.specs.declared.machine.EndMachine.{EndMachine};
ghost use Rattle.ring_machine.specs.Places.{raises_for_room};
ghost use Rattle.ring_call_plan.specs.Answers.{no_call, planned};
ghost use Rattle.ring_call_plan.specs.Numbers.{commit_says, commit_end, commit_index, gives_room, given_says, given_end};
ghost use Rattle.ring_call_plan.specs.Shown.{Shows, feds};
ghost use Rattle.ring_call_plan.specs.Plans.{CommitBegun, CommitEnded};

use crate::end::{Answer, PlanEnd, State};
use crate::ring::{free_in, names_cell, used_in};

#[inline(always)]
fn plan_commit(end: &mut PlanEnd, index: &mut u32) -> u32
    ensures says { result ≡ commit_says end.old }
    ensures end { end.new ≡ commit_end end.old }
    ensures index { index.new ≡ commit_index end.old index.old }
{
    if !end.is_at(State::IDLE) {
        return Answer::NO_CALL;
    }
    end.len = 0;
    end.state = State::GIVING;
    *index = 8 * end.read;
    Answer::PLANNED
}

// Whether a commit makes room: `cur` is free now, `got` was given back by it, and the producer waits for more than `pending`.
#[inline(always)]
fn raise_for_room(cur: u32, got: u32, pending: u32) -> bool
    ensures { result ≡ raises_for_room cur got pending }
{
    got <= cur && pending < cur && cur - got <= pending
}

// Whether this commit makes the room that the producer waits for.
#[inline(always)]
fn gives_room(end: &PlanEnd, pending: u32, write: u32) -> bool
    requires { (end.now.start < end.now.cells) × (end.now.read < end.now.cells) × (end.now.cells ≤ 16777216) }
    ensures { result ≡ gives_room end.now pending write }
{
    let d = 8 * end.cells;
    names_cell(end.cells, write)
        && raise_for_room(
            free_in(d, 8 * end.read, write),
            used_in(d, 8 * end.start, 8 * end.read),
            pending,
        )
}

#[inline(always)]
fn end_commit(end: &mut PlanEnd, feature: u32, pending: u32, write: u32) -> u32
    ensures says { result ≡ given_says end.old feature pending write }
    ensures end { end.new ≡ given_end end.old }
{
    if !end.is_at(State::GIVING) {
        return Answer::NO_CALL;
    }
    let raises = feature % 2 == 1 && pending != 0 && gives_room(end, pending, write);
    end.start = end.read;
    end.state = State::IDLE;
    if raises {
        Answer::COMMITTED_RAISED
    } else {
        Answer::COMMITTED_QUIET
    }
}

/// Plans a commit of all packets that were taken: `index` is the read index to store.
#[inline(always)]
pub fn commit_plan(end: &mut PlanEnd, index: &mut u32) -> u32
    ensures says { result ≡ commit_says end.old }
    ensures unchanged { result ≡ no_call → end.new ≡ end.old }
    ensures kept { result ≢ planned → index.new ≡ index.old }
    ensures machine { (m : EndMachine) → Shows end.old m → result ≢ no_call → CommitBegun m end.new index.new }
{
    plan_commit(end, index)
}

/// Ends a commit whose read index is stored, where the peer's feature bits, its pending size and its write index are these. Pending counts where bit 0 of
/// feature is set, and write where pending isn't 0.
#[inline(always)]
pub fn commit_done(end: &mut PlanEnd, feature: u32, pending: u32, write: u32) -> u32
    ensures says { result ≡ given_says end.old feature pending write }
    ensures unchanged { result ≡ no_call → end.new ≡ end.old }
    ensures machine { (m : EndMachine) → Shows end.old m → result ≢ no_call → CommitEnded m feature pending write result end.new }
{
    end_commit(end, feature, pending, write)
}
