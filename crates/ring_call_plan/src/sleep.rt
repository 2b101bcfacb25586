//! Sleep, and the mark.
ghost use Rattle.std.specs.Prelude.{◌≡◌, ◌≢◌, ℕ, ◌+◌, ◌*◌, ◌<◌, ◌≤◌, ◌^◌, ◌==◌, cond, List, length};
ghost use Rattle.ring_machine.specs.declared.machine.EndMachine.{EndMachine};
ghost use Rattle.ring_call_plan.specs.Answers.{no_call};
ghost use Rattle.ring_call_plan.specs.Numbers.{can_arm, arm_says, arm_end, has_room, finds_work, armed_says, armed_end, polled_says, polled_end, commit_says, marked_end};
ghost use Rattle.ring_call_plan.specs.Shown.{Shows, feds};
ghost use Rattle.ring_call_plan.specs.Plans.{ArmBegun, ArmEnded, PollEnded, MarkSaid};

use crate::end::{Answer, PlanEnd, State};
use crate::ring::{free_in, named_cell, names_cell};

// Whether an arm can begin.
#[inline(always)]
fn can_arm(end: &PlanEnd, want: u32) -> bool
    ensures { result ≡ can_arm end.now want }
{
    end.is_at(State::IDLE)
        && end.start == end.read
        && (want == 0 || want >= 24 && want < 8 * end.cells)
}

#[inline(always)]
fn plan_arm(end: &mut PlanEnd, want: u32) -> u32
    ensures says { result ≡ arm_says end.old want }
    ensures end { end.new ≡ arm_end end.old want }
{
    if !can_arm(end, want) {
        return Answer::NO_CALL;
    }
    end.len = 0;
    end.want = want;
    end.state = State::ARMING;
    Answer::PLANNED
}

// Whether there is the room that an arm waits for.
#[inline(always)]
fn has_room(end: &PlanEnd, read: u32) -> bool
    requires { (end.now.write < end.now.cells) × (end.now.cells ≤ 16777216) }
    ensures { result ≡ has_room end.now read }
{
    !names_cell(end.cells, read) || end.want < 8 * free_in(end.cells, named_cell(read), end.write)
}

// Whether an arm finds packets, the room that it waits for, or the peer's mark.
#[inline(always)]
fn finds_work(end: &PlanEnd, write: u32, read: u32, mark: u64) -> bool
    requires { (end.now.read < end.now.cells) × (end.now.write < end.now.cells) × (end.now.cells ≤ 16777216) }
    ensures { result ≡ finds_work end.now write read mark }
{
    write != 8 * end.read || end.want != 0 && has_room(end, read) || mark != 0
}

#[inline(always)]
fn end_arm(end: &mut PlanEnd, write: u32, read: u32, mark: u64) -> u32
    ensures says { result ≡ armed_says end.old write read mark }
    ensures end { end.new ≡ armed_end end.old write read mark }
{
    if !end.is_at(State::ARMING) {
        return Answer::NO_CALL;
    }
    if !finds_work(end, write, read, mark) {
        end.state = State::ASLEEP;
        return Answer::FELL_ASLEEP;
    }
    let wanted = end.want;
    end.want = 0;
    end.state = State::IDLE;
    if wanted == 0 {
        Answer::FOUND_WORK
    } else {
        Answer::FOUND_WORK_ROOM
    }
}

#[inline(always)]
fn end_poll(end: &mut PlanEnd, signal: u64) -> u32
    ensures says { result ≡ polled_says end.old signal }
    ensures end { end.new ≡ polled_end end.old signal }
{
    if !end.is_at(State::ASLEEP) {
        return Answer::NO_CALL;
    }
    end.len = 0;
    if signal == 0 {
        return Answer::NO_SIGNAL;
    }
    let wanted = end.want;
    end.want = 0;
    end.state = State::IDLE;
    if wanted == 0 {
        Answer::WOKE
    } else {
        Answer::WOKE_ROOM
    }
}

#[inline(always)]
fn say_all(end: &mut PlanEnd) -> u32
    ensures says { result ≡ commit_says end.old }
    ensures end { end.new ≡ marked_end end.old }
{
    if !end.is_at(State::IDLE) {
        return Answer::NO_CALL;
    }
    end.len = 0;
    end.state = State::MARKED;
    Answer::PLANNED
}

/// Plans to arm the signal, for packets, and for more room than `want` bytes where that isn't 0: the caller stores it to pending, where it isn't 0, and 0 to mask.
#[inline(always)]
pub fn arm_plan(end: &mut PlanEnd, want: u32) -> u32
    ensures says { result ≡ arm_says end.old want }
    ensures unchanged { result ≡ no_call → end.new ≡ end.old }
    ensures machine { (m : EndMachine) → Shows end.old m → result ≢ no_call → ArmBegun m want end.new }
{
    plan_arm(end, want)
}

/// Ends an arm whose stores are made, where the peer's write index, its read index and its mark are these. The read index counts where the arm waits for room.
#[inline(always)]
pub fn arm_done(end: &mut PlanEnd, write: u32, read: u32, mark: u64) -> u32
    ensures says { result ≡ armed_says end.old write read mark }
    ensures unchanged { result ≡ no_call → end.new ≡ end.old }
    ensures machine { (m : EndMachine) → Shows end.old m → result ≢ no_call → (ws : List ℕ) → length ws ≡ cond (end.old.want == 0) 1 2 → ArmEnded end.old m ws write read mark result end.new }
{
    end_arm(end, write, read, mark)
}

/// Ends a look at the end's own signal, which the caller exchanged with 0 and found to be `signal`.
#[inline(always)]
pub fn poll_done(end: &mut PlanEnd, signal: u64) -> u32
    ensures says { result ≡ polled_says end.old signal }
    ensures unchanged { result ≡ no_call → end.new ≡ end.old }
    ensures machine { (m : EndMachine) → Shows end.old m → result ≢ no_call → PollEnded m signal result end.new }
{
    end_poll(end, signal)
}

/// Says that the end sends nothing more: the caller stores its mark, and then raises the peer's signal.
#[inline(always)]
pub fn mark_done(end: &mut PlanEnd) -> u32
    ensures says { result ≡ commit_says end.old }
    ensures unchanged { result ≡ no_call → end.new ≡ end.old }
    ensures machine { (m : EndMachine) → Shows end.old m → result ≢ no_call → MarkSaid m end.new }
{
    say_all(end)
}
