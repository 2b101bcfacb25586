//! Lends of data pages by ends that keep no packet, by turns on atomic words.
ghost use Rattle.std.specs.Prelude.{◌≡◌};
ghost use Rattle.ring_seat.specs.Whole.{new_paged};

use crate::check::check;
use crate::lends::{completion, request};
use page_table::Loan;
use ring_core::{End, Seatlike, Side, is_packet};
use ring_lean_end::LeanEnd;
use ring_seat::{ChannelMem, TableSeat};
use std::alloc::AllocGlobal;
use std::process::Abort;

// Lends, out and back.
const LENDS: u64 = 1_000;

// An end that keeps no packet, over the seat of a new end of a channel of one page a ring, and two data pages.
fn lean(rt: &(impl Abort + AllocGlobal), end: End<TableSeat>, side: Side) -> LeanEnd<TableSeat>
    requires { end.state ≡ new_paged 512 2 side }
{
    let _seat = end.seat();
    end.items_fit();
    let (seat, sent, got) = end.into_parts();
    drop(sent);
    drop(got);
    let mut end = LeanEnd::make(rt.alloc(), side, 4096, seat, 2).expect(rt, "memory");
    end.reserve(4).expect(rt, "memory");
    end
}

// Whether a packet may be sent now.
fn may_send<S: Seatlike>(e: &LeanEnd<S>, p: &[u64]) -> bool {
    is_packet(p) && e.may_send(p)
}

// Stores words into the part of a page that goes along with a packet, and sends that, where it may be done.
fn sends<S: Seatlike>(e: &mut LeanEnd<S>, p: &[u64], words: &[u64]) -> bool {
    if e.is_asleep() || e.is_marked() || e.broken().is_some() || e.room() == 0 {
        return false;
    }
    if !is_packet(p) || p.len() > 512 || !e.fits(p.len() as u32) || !e.may_send(p) {
        return false;
    }
    match e.part_of(p) {
        Some(part) if words.len() <= part.words as usize => e.lay(p, words),
        _ => return false,
    }
    e.send(p).is_ok()
}

// Takes a packet, and loads the words that come with it, where that may be done: which part of a page they are.
fn takes<S: Seatlike>(e: &mut LeanEnd<S>) -> Option<Loan> {
    if e.is_asleep() || e.is_marked() || e.is_due() || e.room() == 0 || e.take().is_err() {
        return None;
    }
    if e.broken().is_some() {
        return None;
    }
    e.load()
}

// Whether a part of a page has these words.
fn has<S: Seatlike>(e: &LeanEnd<S>, part: Option<Loan>, words: &[u64]) -> bool {
    match part {
        Some(part) if part.page < e.pages() && part.words <= 512 => e.words(part) == words,
        _ => false,
    }
}

#[test]
fn pages_go_out_and_back(rt: HostRuntime) {
    let (guest, host) = ChannelMem::make(rt.alloc(), 1, 2).expect(&rt, "memory");
    let mut guest = lean(&rt, guest, Side::Guest);
    let mut host = lean(&rt, host, Side::Host);
    let room = guest.room();
    for lend in 0..LENDS {
        let page = if lend % 2 == 0 { 0 } else { 1 };
        let words = [lend, 0, !lend];
        let asked = request(page, 3);
        let done = completion(page);
        check(&rt, sends(&mut guest, &asked, &words));
        let came = takes(&mut host);
        check(
            &rt,
            host.taken() == asked.as_slice() && has(&host, came, &words),
        );
        check(&rt, host.owns(page) && !guest.owns(page));
        check(&rt, sends(&mut host, &done, &[!lend, 7]));
        let back = takes(&mut guest);
        check(&rt, guest.taken() == done.as_slice());
        check(
            &rt,
            has(&guest, back, &[!lend, 7, !lend]) && guest.owns(page),
        );
        check(&rt, free(&mut guest) && free(&mut host));
    }
    check(&rt, guest.room() == room);
    drop(guest);
    drop(host);
}

// Gives the cells of all that was taken back.
fn free<S: Seatlike>(e: &mut LeanEnd<S>) -> bool {
    if e.is_asleep() || e.is_marked() || e.is_due() || e.broken().is_some() {
        return false;
    }
    e.commit();
    true
}

#[test]
fn open_ids_lend_no_page(rt: HostRuntime) {
    let (guest, host) = ChannelMem::make(rt.alloc(), 1, 2).expect(&rt, "memory");
    let mut guest = lean(&rt, guest, Side::Guest);
    let mut host = lean(&rt, host, Side::Host);
    // The other page, by the id of the first one.
    let other = [0x5_0005_0009, 1, 0x1_0000_0000, 24, 1];
    check(
        &rt,
        may_send(&guest, &other) && !may_send(&host, &completion(0)),
    );
    check(&rt, sends(&mut guest, &request(0, 3), &[1, 2, 3]));
    check(
        &rt,
        !may_send(&guest, &request(0, 3)) && !may_send(&guest, &other),
    );
    check(
        &rt,
        takes(&mut host).is_some() && may_send(&host, &completion(0)),
    );
    check(&rt, sends(&mut host, &completion(0), &[]));
    check(
        &rt,
        !may_send(&host, &completion(0)) && !may_send(&guest, &other),
    );
    check(&rt, takes(&mut guest).is_some() && may_send(&guest, &other));
    drop(guest);
    drop(host);
}
