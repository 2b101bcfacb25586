//! Takes.
ghost use Rattle.std.specs.Prelude.{◌≡◌, ◌≢◌, ℕ, ◌+◌, ◌*◌, ◌<◌, ◌≤◌, ◌^◌, List, length};
ghost use Rattle.ring_machine.specs.declared.machine.EndMachine.{EndMachine};
ghost use Rattle.ring_machine.specs.Places.{len8_of, offset8_of};
ghost use Rattle.ring_call_plan.specs.Answers.{no_call, planned};
ghost use Rattle.ring_call_plan.specs.Numbers.{take_says, take_end, take_at, has_length, has_offset, head_says, head_end, take_plan_of, head_planned};
ghost use Rattle.ring_call_plan.specs.Shown.{Shows, feds};
ghost use Rattle.ring_call_plan.specs.Plans.{TakeBegun, TakeEnded, TakeInside};

use crate::end::{Answer, PlanEnd, State, TakePlan};
use crate::ring::{
    cells_before_wrap, named_cell, names_cell, packet_len, payload_offset, step_ahead, used_in,
};

#[inline(always)]
fn plan_take(end: &mut PlanEnd, write: u32, at: &mut u32) -> u32
    ensures says { result ≡ take_says end.old write }
    ensures end { end.new ≡ take_end end.old write }
    ensures at { at.new ≡ take_at end.old write at.old }
{
    if !end.is_at(State::IDLE) {
        return Answer::NO_CALL;
    }
    end.len = 0;
    if !names_cell(end.cells, write) {
        end.state = State::STOPPED;
        return Answer::BAD_INDEX;
    }
    let seen = named_cell(write);
    if seen == end.read {
        return Answer::EMPTY;
    }
    end.seen = seen;
    end.state = State::TAKING;
    *at = 8 * end.read;
    Answer::PLANNED
}

// The loads of the rest of a packet of `len` words.
#[inline(always)]
fn loads(end: &PlanEnd, head: u64, len: u32, offset: u32) -> TakePlan
    requires { (end.now.read < end.now.cells) × (1 < end.now.cells) × (end.now.cells ≤ 16777216) × (0 < len) × (len ≡ len8_of head) × (offset ≡ offset8_of head) }
    ensures { result ≡ take_plan_of end.now head }
{
    // For the proof: a number by value is known to fit its type where it is read.
    let _head = head;
    let from = step_ahead(end.cells, end.read, 1);
    let first = cells_before_wrap(end.cells, from, len - 1);
    TakePlan {
        at: 8 * from,
        first,
        second: len - 1 - first,
        len,
        offset,
    }
}

#[inline(always)]
fn plan_head(end: &mut PlanEnd, head: u64, plan: &mut TakePlan) -> u32
    ensures says { result ≡ head_says end.old head }
    ensures end { end.new ≡ head_end end.old head }
    ensures plan { plan.new ≡ head_planned end.old head plan.old }
{
    if !end.is_at(State::TAKING) {
        return Answer::NO_CALL;
    }
    let len = packet_len(head);
    let offset = payload_offset(head);
    if len < 2 || len >= used_in(end.cells, end.read, end.seen) {
        end.state = State::STOPPED;
        return Answer::BAD_LENGTH;
    }
    if offset < 2 || offset > len {
        end.state = State::STOPPED;
        return Answer::BAD_OFFSET;
    }
    *plan = loads(end, head, len, offset);
    end.len = len;
    end.read = step_ahead(end.cells, end.read, len + 1);
    end.state = State::IDLE;
    Answer::PLANNED
}

/// Begins a take, where the peer's write index is `write`: `at` is then the offset of the packet's first cell in bytes.
#[inline(always)]
pub fn take_plan(end: &mut PlanEnd, write: u32, at: &mut u32) -> u32
    ensures says { result ≡ take_says end.old write }
    ensures unchanged { result ≡ no_call → end.new ≡ end.old }
    ensures kept { result ≢ planned → at.new ≡ at.old }
    ensures machine { (m : EndMachine) → Shows end.old m → result ≢ no_call → TakeBegun m write result end.new at.new }
{
    plan_take(end, write, at)
}

/// Ends a take, where the packet's first cell is `head`: the caller loads the rest of the packet as planned.
#[inline(always)]
pub fn take_head(end: &mut PlanEnd, head: u64, plan: &mut TakePlan) -> u32
    ensures says { result ≡ head_says end.old head }
    ensures unchanged { result ≡ no_call → end.new ≡ end.old }
    ensures kept { result ≢ planned → plan.new ≡ plan.old }
    ensures inside { result ≡ planned → TakeInside end.old.cells end.old.read end.old.seen plan.new }
    ensures machine { (m : EndMachine) → Shows end.old m → result ≢ no_call → TakeEnded m head result end.new plan.new }
{
    plan_head(end, head, plan)
}
