//! Lends of data pages between two threads.
ghost use Rattle.ring_seat.specs.Settling.{AreOfOneChannel, IsSameEnd};

use crate::check::check;
use crate::lends::{completion, request, sends, stores, takes};
use ring_core::{Armed, End, Room};
use ring_seat::{ChannelMem, GuestEnd, HostEnd, Settled, TableSeat, finish};
use std::alloc::AllocGlobal;
use std::hint;
use std::process::Abort;
use std::sync::Wait;
use std::thread::join;

// Lends, out and back.
const LENDS: u64 = 10_000;

// How often each end looks for work at most, so that the test ends.
const TURNS: u64 = 30 * LENDS;

// How often an end looks for a packet before it rests: a sleep and a wake for each lend take long on a busy machine.
const LOOKS: u32 = 1_000;

// The words of each lend.
const WORDS: u32 = 3;

// The same end, with room for all packets and their page words.
fn with_room(rt: &impl Abort, mut e: End<TableSeat>) -> End<TableSeat>
    ensures { IsSameEnd e result }
{
    let room = Room {
        packets: LENDS + 1,
        words: 16 * LENDS,
    };
    e.reserve(room, room).expect(rt, "memory");
    e
}

// Both ends of a new channel of one page a ring, and two data pages.
fn opened(rt: &(impl Abort + AllocGlobal)) -> (GuestEnd, HostEnd)
    ensures { AreOfOneChannel result.0 result.1 }
{
    let (guest, host) = ChannelMem::make(rt.alloc(), 1, 2).expect(rt, "memory");
    (with_room(rt, guest), with_room(rt, host))
}

// The page of this lend: they take turns.
fn page_of(lend: u64) -> u32 {
    if lend % 2 == 0 { 0 } else { 1 }
}

// Arms the signal, and sleeps where there is nothing to do.
fn rest<R: Wait>(rt: &R, e: &mut End<TableSeat>)
    ensures { IsSameEnd e.old e.new }
{
    if !e.is_ready() || e.is_due() {
        return;
    }
    e.commit();
    let armed = e.arm(None);
    if matches!(armed, Armed::Asleep) && e.is_asleep() {
        ring_sleep::sleep(e, rt);
    }
}

// Stores three words into a page and lends them, where the page is at home.
fn lends(e: &mut GuestEnd, page: u32, lend: u64) -> bool
    ensures { IsSameEnd e.old e.new }
{
    stores(e, page, 0, lend)
        && stores(e, page, 1, 0)
        && stores(e, page, 2, !lend)
        && sends(e, &request(page, WORDS))
}

// Takes what has come, or rests where nothing comes for a while.
fn waits<R: Wait>(rt: &R, e: &mut End<TableSeat>)
    ensures { IsSameEnd e.old e.new }
{
    for _ in 0..LOOKS {
        if takes(e) {
            return;
        }
        hint::spin_loop();
    }
    rest(rt, e);
}

// Lends each page again as soon as it has come back, until all lends are done and both pages are at home.
fn lend_all<R: Wait>(rt: &R, mut e: GuestEnd) -> GuestEnd
    ensures { IsSameEnd e result }
{
    let mut lent: u64 = 0;
    for _ in 0..TURNS {
        if lent < LENDS && lends(&mut e, page_of(lent), lent) {
            lent += 1;
        } else if lent >= LENDS && e.owns(0) && e.owns(1) {
            return e;
        } else {
            waits(rt, &mut e);
        }
    }
    e
}

// Stores another word into a page and gives it back, where it is there.
fn gives_back(e: &mut HostEnd, page: u32, lend: u64) -> bool
    ensures { IsSameEnd e.old e.new }
{
    stores(e, page, 1, lend) && sends(e, &completion(page))
}

// Takes each page, stores another word into it, and gives it back.
fn give_back_all<R: Wait>(rt: &R, mut e: HostEnd) -> HostEnd
    ensures { IsSameEnd e result }
{
    let mut back: u64 = 0;
    for _ in 0..TURNS {
        if back >= LENDS {
            return e;
        }
        if gives_back(&mut e, page_of(back), back) {
            back += 1;
        } else {
            waits(rt, &mut e);
        }
    }
    e
}

// Whether each packet that the host got came with the words that the guest had stored, and each one that the guest got also with the host's.
fn are_whole(settled: &Settled) -> bool {
    let out = settled.host_got();
    let back = settled.guest_got();
    for i in 0..LENDS {
        let there = out.lent(i as usize) == Some(&[i, 0, !i]);
        let home = back.lent(i as usize) == Some(&[i, i, !i]);
        if !there || !home {
            return false;
        }
    }
    out.len() == LENDS as usize && back.len() == LENDS as usize
}

// Whether the lists of packets and page words have no room left.
fn has_no_room(settled: &Settled) -> bool {
    let sent = settled.guest_sent().room();
    let got = settled.guest_got().room();
    sent.packets == 0 && sent.words == 0 && got.packets == 0 && got.words == 0
}

#[test]
fn pages_cross_between_threads(rt: HostRuntime) {
    let (guest, host) = opened(&rt);
    let run = &rt;
    let (guest, host) = join(
        run,
        move || -> GuestEnd
            ensures { IsSameEnd guest result }
        { lend_all(run, guest) },
        move || -> HostEnd
            ensures { IsSameEnd host result }
        { give_back_all(run, host) },
    );
    check(&rt, guest.owns(0) && guest.owns(1));
    let mut settled = finish(guest, host);
    check(&rt, are_whole(&settled));
    check(&rt, settled.trim().is_ok() && has_no_room(&settled));
    check(&rt, are_whole(&settled));
}
