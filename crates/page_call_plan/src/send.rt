//! Sends.
ghost use Rattle.std.specs.Prelude.{◌≡◌, ◌≢◌, ◌==◌, ◌≤◌, length};
ghost use Rattle.pkt_desc.specs.Packets.{IsPacket, id_of};
ghost use Rattle.page_call_plan.specs.Answers.{page_done, planned};
ghost use Rattle.page_call_plan.specs.Ends.{answer_says, ask_says, end_at, asks_sent, owed_sent, room_says, send_says, sent_says};
ghost use Rattle.page_call_plan.specs.Slots.{given_back, held_under, lent_out, named_in, slots_sent};

use crate::answer::PageAnswer;
use crate::end::{PageEnd, PageState, is_at};
use crate::ids::{IdSlot, add_id, has_id, has_room, remove_id};
use crate::packet::{is_completion, is_packet, named};
use crate::slot::{PageSlot, first_held, had};

#[inline(always)]
fn answer_says(owed: &[IdSlot], tid: u64) -> u32
    ensures says { result ≡ answer_says owed.now tid }
    ensures undone { result ≢ page_done }
{
    if has_id(owed, tid) {
        PageAnswer::PLANNED
    } else {
        PageAnswer::ID_NOT_OWED
    }
}

#[inline(always)]
fn room_says(asks: &[IdSlot], tid: u64) -> u32
    ensures says { result ≡ room_says asks.now tid }
    ensures undone { result ≢ page_done }
{
    if has_room(asks, tid) {
        PageAnswer::PLANNED
    } else {
        PageAnswer::NO_IDS
    }
}

#[inline(always)]
fn ask_says(slots: &[PageSlot], asks: &[IdSlot], packet: &[u64]) -> u32
    requires packet { IsPacket packet.now }
    requires few { length slots.now ≤ 128 }
    ensures says { result ≡ ask_says slots.now asks.now (id_of packet.now) (named_in slots.now packet.now) }
    ensures undone { result ≢ page_done }
{
    let tid = packet[1];
    let Some(loan) = named(slots.len() as u32, packet) else {
        return room_says(asks, tid);
    };
    if !had(slots[loan.page as usize]) {
        return PageAnswer::NOT_OWNED;
    }
    if has_id(asks, tid) {
        return PageAnswer::ID_OPEN;
    }
    room_says(asks, tid)
}

// What a send answers of an end that is in this state: PLANNED where it may be.
#[inline(always)]
fn send_says(
    end: &PageEnd,
    state: u32,
    slots: &[PageSlot],
    asks: &[IdSlot],
    owed: &[IdSlot],
    packet: &[u64],
) -> u32
    ensures says { result ≡ send_says end.now state slots.now asks.now owed.now packet.now }
    ensures packet { result ≡ planned → IsPacket packet.now }
    ensures few { result ≡ planned → length slots.now ≤ 128 }
    ensures undone { result ≢ page_done }
{
    if !is_at(end, state, slots) || !is_packet(packet) {
        return PageAnswer::NO_CALL;
    }
    if end.due_words != 0 {
        return PageAnswer::DUE;
    }
    if is_completion(packet) {
        answer_says(owed, packet[1])
    } else {
        ask_says(slots, asks, packet)
    }
}

// The page that is held under this id goes back.
#[inline(always)]
fn give_back(slots: &mut [PageSlot], tid: u64)
    ensures { slots.new ≡ given_back slots.old (held_under tid slots.old) }
{
    let Some(page) = first_held(slots, tid) else {
        return;
    };
    slots[page] = PageSlot::AWAY;
}

// The page that a packet names is lent.
#[inline(always)]
fn lend(slots: &mut [PageSlot], packet: &[u64])
    requires packet { IsPacket packet.now }
    requires few { length slots.old ≤ 128 }
    ensures { slots.new ≡ lent_out slots.old (id_of packet.now) (named_in slots.old packet.now) }
{
    let Some(loan) = named(slots.len() as u32, packet) else {
        return;
    };
    slots[loan.page as usize] = PageSlot::lent(packet[1], loan.words);
}

/// Plans to send a packet. A completion needs a request that was taken and isn't completed. Any other packet that names a page needs that the end has it, that no
/// request of its id is open, and room for the id.
pub fn page_send_plan(
    end: &mut PageEnd,
    slots: &[PageSlot],
    asks: &[IdSlot],
    owed: &[IdSlot],
    packet: &[u64],
) -> u32
    ensures says { result ≡ send_says end.old 0 slots.now asks.now owed.now packet.now }
    ensures unchanged { result ≢ planned → end.new ≡ end.old }
    ensures end { result ≡ planned → end.new ≡ end_at 3 end.old }
{
    let answer = send_says(end, PageState::IDLE, slots, asks, owed, packet);
    if answer == PageAnswer::PLANNED {
        end.state = PageState::SENDING;
    }
    answer
}

/// Ends a send that was planned, of a packet that the ring has now: a completion gives back the page that is held under its id, and any other packet lends what it
/// names. The packet is tested again, so that another one than was planned doesn't pass for it.
pub fn page_send_done(
    end: &mut PageEnd,
    slots: &mut [PageSlot],
    asks: &mut [IdSlot],
    owed: &mut [IdSlot],
    packet: &[u64],
) -> u32
    ensures says { result ≡ sent_says end.old slots.old asks.old owed.old packet.now }
    ensures unchanged { result ≢ page_done → (end.new ≡ end.old) × (slots.new ≡ slots.old) × (asks.new ≡ asks.old) × (owed.new ≡ owed.old) }
    ensures end { result ≡ page_done → end.new ≡ end_at 0 end.old }
    ensures slots { result ≡ page_done → slots.new ≡ slots_sent slots.old packet.now }
    ensures asks { result ≡ page_done → asks.new ≡ asks_sent asks.old packet.now }
    ensures owed { result ≡ page_done → owed.new ≡ owed_sent owed.old packet.now }
{
    let answer = send_says(end, PageState::SENDING, slots, asks, owed, packet);
    if answer != PageAnswer::PLANNED {
        return answer;
    }
    let tid = packet[1];
    if is_completion(packet) {
        remove_id(owed, tid);
        give_back(slots, tid);
    } else {
        add_id(asks, tid);
        lend(slots, packet);
    }
    end.state = PageState::IDLE;
    PageAnswer::DONE
}
