//! Takes.
ghost use Rattle.std.specs.Prelude.{◌≡◌, ◌≢◌, ◌⊎◌, ◌≤◌, length};
ghost use Rattle.pkt_desc.specs.Packets.{IsPacket, id_of};
ghost use Rattle.page_call_plan.specs.Answers.{page_due, planned, took};
ghost use Rattle.page_call_plan.specs.Ends.{end_at, end_due, asks_took, owed_took, part_says, take_says, took_says};
ghost use Rattle.page_call_plan.specs.Slots.{back_part, has_back, held_now, held_part, lent_under, loans, named_in, part_took, slots_took};

use crate::answer::PageAnswer;
use crate::end::{PageEnd, PageState, is_at};
use crate::ids::{IdSlot, add_id, has_free, has_room, remove_id};
use crate::packet::{Part, is_completion, is_packet, named};
use crate::slot::{PageSlot, WORDS, first_lent, may_be_held};

// The page that is lent under this id, with its words.
#[inline(always)]
fn back_part(slots: &[PageSlot], tid: u64) -> Option<Part>
    requires few { length slots.now ≤ 128 }
    ensures { loans result ≡ back_part slots.now (lent_under tid slots.now) }
{
    let page = first_lent(slots, tid)?;
    Some(Part {
        page: page as u32,
        words: slots[page].words,
    })
}

// The page that a packet names, where this end may hold it.
#[inline(always)]
fn held_part(slots: &[PageSlot], packet: &[u64]) -> Option<Part>
    requires packet { IsPacket packet.now }
    requires few { length slots.now ≤ 128 }
    ensures { loans result ≡ held_part slots.now (id_of packet.now) (named_in slots.now packet.now) }
{
    let loan = named(slots.len() as u32, packet)?;
    if !may_be_held(slots[loan.page as usize], packet[1]) {
        return None;
    }
    Some(loan)
}

// The part of a page that comes with a packet.
#[inline(always)]
fn part_took(slots: &[PageSlot], packet: &[u64]) -> Option<Part>
    requires packet { IsPacket packet.now }
    requires few { length slots.now ≤ 128 }
    ensures { loans result ≡ part_took slots.now packet.now }
{
    if is_completion(packet) {
        back_part(slots, packet[1])
    } else {
        held_part(slots, packet)
    }
}

// Whether a part is 1 to 512 words, where there is one.
#[inline(always)]
fn part_says(part: Option<Part>) -> u32
    ensures { result ≡ part_says (loans part) }
{
    match part {
        None => PageAnswer::TOOK,
        Some(a) if 1 <= a.words && a.words <= WORDS => PageAnswer::DUE,
        Some(_) => PageAnswer::NO_CALL,
    }
}

/// Plans to take a packet: no words are to be loaded, and there is room for one more id.
pub fn page_take_plan(end: &mut PageEnd, slots: &[PageSlot], owed: &[IdSlot]) -> u32
    ensures says { result ≡ take_says end.old slots.now owed.now }
    ensures unchanged { result ≢ planned → end.new ≡ end.old }
    ensures end { result ≡ planned → end.new ≡ end_at 4 end.old }
{
    if !is_at(end, PageState::IDLE, slots) {
        return PageAnswer::NO_CALL;
    }
    if end.due_words != 0 {
        return PageAnswer::DUE;
    }
    if !has_free(owed) {
        return PageAnswer::NO_IDS;
    }
    end.state = PageState::TAKING;
    PageAnswer::PLANNED
}

// The end after a take with which this part of a page came.
#[inline(always)]
fn end_due(part: Option<Part>) -> PageEnd
    ensures { result ≡ end_due (loans part) }
{
    match part {
        None => PageEnd {
            state: PageState::IDLE,
            due_page: 0,
            due_words: 0,
        },
        Some(a) => PageEnd {
            state: PageState::IDLE,
            due_page: a.page,
            due_words: a.words,
        },
    }
}

// The page that is lent under this id comes back.
#[inline(always)]
fn bring_back(slots: &mut [PageSlot], tid: u64)
    ensures { slots.new ≡ has_back slots.old (lent_under tid slots.old) }
{
    let Some(page) = first_lent(slots, tid) else {
        return;
    };
    slots[page] = PageSlot::HAS;
}

// The page that a packet names is held, where it may be.
#[inline(always)]
fn hold(slots: &mut [PageSlot], packet: &[u64])
    requires packet { IsPacket packet.now }
    requires few { length slots.old ≤ 128 }
    ensures { slots.new ≡ held_now slots.old (id_of packet.now) (named_in slots.old packet.now) }
{
    let Some(loan) = named(slots.len() as u32, packet) else {
        return;
    };
    let page = loan.page as usize;
    if may_be_held(slots[page], packet[1]) {
        slots[page] = PageSlot::held(packet[1], loan.words);
    }
}

// What a take of a packet answers, and the part of a page that comes with it.
#[inline(always)]
fn took_says(end: &PageEnd, slots: &[PageSlot], owed: &[IdSlot], packet: &[u64]) -> u32
    ensures says { result ≡ took_says end.now slots.now owed.now packet.now }
    ensures packet { (result ≡ took) ⊎ (result ≡ page_due) → IsPacket packet.now }
    ensures few { (result ≡ took) ⊎ (result ≡ page_due) → length slots.now ≤ 128 }
{
    if !is_at(end, PageState::TAKING, slots) || !is_packet(packet) || end.due_words != 0 {
        return PageAnswer::NO_CALL;
    }
    if !is_completion(packet) && !has_room(owed, packet[1]) {
        return PageAnswer::NO_IDS;
    }
    part_says(part_took(slots, packet))
}

/// Ends a take that was planned, of this packet: a completion brings back the page that is lent under its id, and of any other packet the end holds the page that it
/// names, where it may. It answers DUE where words of that page are then to be loaded, and TOOK where no page came.
pub fn page_take_done(
    end: &mut PageEnd,
    slots: &mut [PageSlot],
    asks: &mut [IdSlot],
    owed: &mut [IdSlot],
    packet: &[u64],
) -> u32
    ensures says { result ≡ took_says end.old slots.old owed.old packet.now }
    ensures unchanged { result ≢ took → result ≢ page_due → (end.new ≡ end.old) × (slots.new ≡ slots.old) × (asks.new ≡ asks.old) × (owed.new ≡ owed.old) }
    ensures end { (result ≡ took) ⊎ (result ≡ page_due) → end.new ≡ end_due (part_took slots.old packet.now) }
    ensures slots { (result ≡ took) ⊎ (result ≡ page_due) → slots.new ≡ slots_took slots.old packet.now }
    ensures asks { (result ≡ took) ⊎ (result ≡ page_due) → asks.new ≡ asks_took asks.old packet.now }
    ensures owed { (result ≡ took) ⊎ (result ≡ page_due) → owed.new ≡ owed_took owed.old packet.now }
{
    let answer = took_says(end, slots, owed, packet);
    if answer != PageAnswer::TOOK && answer != PageAnswer::DUE {
        return answer;
    }
    *end = end_due(part_took(slots, packet));
    let tid = packet[1];
    if is_completion(packet) {
        remove_id(asks, tid);
        bring_back(slots, tid);
    } else {
        add_id(owed, tid);
        hold(slots, packet);
    }
    answer
}
