//! Sends.
ghost use Rattle.std.specs.Prelude.{◌≡◌, ◌≢◌, ℕ, ◌+◌, ◌*◌, ◌<◌, ◌≤◌, ◌^◌, List, length, slice_index};
ghost use Rattle.ring_machine.specs.Places.{len8_of, cell_of};
ghost use Rattle.ring_machine.specs.States.{IsPacket};
ghost use Rattle.ring_machine.specs.declared.machine.EndMachine.{EndMachine};
ghost use Rattle.ring_call_plan.specs.Answers.{no_call, planned};
ghost use Rattle.ring_call_plan.specs.Numbers.{has_offset, begin_says, fits, can_send, is_full, send_says, send_end, send_planned, send_plan_of, can_end_send, sent_says, sent_end};
ghost use Rattle.ring_call_plan.specs.Shown.{Shows, feds};
ghost use Rattle.ring_call_plan.specs.Plans.{SendBegun, SendInside, SendEnded};

use crate::end::{Answer, PlanEnd, SendPlan, State};
use crate::ring::{
    cells_before_wrap, free_in, named_cell, names_cell, packet_len, payload_offset, step_ahead,
};

// Whether a send of a packet of `len` words can begin.
#[inline(always)]
fn can_send(end: &PlanEnd, len: u32) -> bool
    ensures { result ≡ can_send end.now len }
{
    end.is_at(State::IDLE) && len >= 2 && len < end.cells - 1
}

// Its stores.
#[inline(always)]
fn stores(end: &PlanEnd, len: u32) -> SendPlan
    requires { (end.now.write < end.now.cells) × (len + 1 < end.now.cells) × (end.now.cells ≤ 16777216) }
    ensures { result ≡ send_plan_of end.now len }
{
    let first = cells_before_wrap(end.cells, end.write, len);
    SendPlan {
        at: 8 * end.write,
        first,
        second: len - first,
        trailer_at: 8 * step_ahead(end.cells, end.write, len),
        trailer: end.write as u64 * 34359738368,
        write: 8 * step_ahead(end.cells, end.write, len + 1),
    }
}

#[inline(always)]
fn plan_send(end: &mut PlanEnd, len: u32, read: u32, plan: &mut SendPlan) -> u32
    ensures says { result ≡ send_says end.old len read }
    ensures end { end.new ≡ send_end end.old len read }
    ensures plan { plan.new ≡ send_planned end.old len read plan.old }
{
    if !can_send(end, len) {
        return Answer::NO_CALL;
    }
    end.len = len;
    if !names_cell(end.cells, read) {
        end.state = State::STOPPED;
        return Answer::BAD_PEER;
    }
    let seen = named_cell(read);
    end.seen = seen;
    if free_in(end.cells, seen, end.write) <= len + 1 {
        return Answer::FULL;
    }
    end.state = State::SENDING;
    *plan = stores(end, len);
    Answer::PLANNED
}

#[inline(always)]
fn end_send(end: &mut PlanEnd, mask: u32, read: u32) -> u32
    ensures says { result ≡ sent_says end.old mask read }
    ensures end { end.new ≡ sent_end end.old }
{
    if !end.is_at(State::SENDING) || end.len >= end.cells - 1 {
        return Answer::NO_CALL;
    }
    let old = end.write;
    end.write = step_ahead(end.cells, old, end.len + 1);
    end.state = State::IDLE;
    if mask == 0 && read == 8 * old {
        Answer::SENT_RAISED
    } else {
        Answer::SENT_QUIET
    }
}

// Whether a packet's first word gives it a payload inside it.
#[inline(always)]
fn has_offset(head: u64) -> bool
    ensures { result ≡ has_offset head }
{
    payload_offset(head) >= 2 && payload_offset(head) <= packet_len(head)
}

/// Plans a send of a packet whose first word is `head`, where the peer's read index is `read`.
#[inline(always)]
pub fn send_plan(end: &mut PlanEnd, head: u64, read: u32, plan: &mut SendPlan) -> u32
    ensures says { result ≡ begin_says end.old head read }
    ensures unchanged { result ≡ no_call → end.new ≡ end.old }
    ensures kept { result ≢ planned → plan.new ≡ plan.old }
    ensures inside { result ≡ planned → SendInside end.old.cells end.old.write (cell_of read) (len8_of head) plan.new }
    ensures packet { result ≢ no_call → (p : List ℕ) → length p ≡ len8_of head → slice_index p 0 ≡ head → IsPacket p }
    ensures machine { (m : EndMachine) → Shows end.old m → result ≢ no_call → SendBegun m (len8_of head) read result end.new plan.new }
{
    if !has_offset(head) {
        return Answer::NO_CALL;
    }
    plan_send(end, packet_len(head), read, plan)
}

/// Ends a send whose stores are made, where the peer's mask is `mask`, and its read index is now `read`, which counts where mask is 0.
#[inline(always)]
pub fn send_done(end: &mut PlanEnd, mask: u32, read: u32) -> u32
    ensures says { result ≡ sent_says end.old mask read }
    ensures unchanged { result ≡ no_call → end.new ≡ end.old }
    ensures machine { (m : EndMachine) → Shows end.old m → result ≢ no_call → (ws : List ℕ) → length ws ≡ end.old.len + 2 → SendEnded m ws mask read result end.new }
{
    end_send(end, mask, read)
}
