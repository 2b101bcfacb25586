//! What a taken packet lends, over memory that a peer wrote as it likes.
ghost use Rattle.std.specs.Prelude.{◌≡◌, ◌%◌, ◌<◌};
ghost use Rattle.ring_machine.specs.Places.{IsPlaceOf};

use crate::check::check;
use crate::lends::{request, sends, takes};
use ring_core::{Change, End, Place, Ring, Room, Seatlike, Side, ToldMem};
use std::alloc::AllocGlobal;
use std::process::Abort;

// The memory of a channel of one page a ring, and two data pages.
fn memory(rt: &(impl Abort + AllocGlobal)) -> ToldMem
    ensures { (result.cells ≡ 512) × (result.pages ≡ 2) }
{
    ToldMem::make(rt.alloc(), 4096, Vec::new(rt.alloc()), 2).expect(rt, "memory")
}

// An end over this memory.
fn end(rt: &(impl Abort + AllocGlobal), side: Side, told: ToldMem) -> End<ToldMem>
    requires { (told.cells ≡ 512) × (told.pages ≡ 2) }
{
    let mut e = End::make(rt.alloc(), side, 4096, told, 2).expect(rt, "memory");
    let room = Room {
        packets: 8,
        words: 8192,
    };
    e.reserve(room, room).expect(rt, "memory");
    e
}

// Writes these five words from this offset of a ring on.
fn puts(told: &mut ToldMem, ring: Ring, at: u32, words: [u64; 5])
    requires place { (at % 8 ≡ 0) × (at < 4000) }
    requires size { (told.old.cells ≡ 512) × (told.old.pages ≡ 2) }
    ensures { (told.new.cells ≡ 512) × (told.new.pages ≡ 2) }
{
    told.put(Place::Cell(ring, at), words[0]);
    told.put(Place::Cell(ring, at + 8), words[1]);
    told.put(Place::Cell(ring, at + 16), words[2]);
    told.put(Place::Cell(ring, at + 24), words[3]);
    told.put(Place::Cell(ring, at + 32), words[4]);
}

// Whether the packet that an end got last came with so many words.
fn came_with<S: Seatlike>(e: &End<S>, words: usize) -> bool {
    let got = e.got();
    match got.lent(got.len().wrapping_sub(1)) {
        Some(lent) => lent.len() == words,
        None => false,
    }
}

// The host, to which one request came, made of these words.
fn host_of(rt: &(impl Abort + AllocGlobal), words: [u64; 5]) -> End<ToldMem> {
    let mut told = memory(rt);
    told.put(Place::Write(Ring::ToHost), 48);
    puts(&mut told, Ring::ToHost, 0, words);
    end(rt, Side::Host, told)
}

// The host takes one request, made of these words: it came with so many page words, and whether the host holds the first page now.
fn host_takes(rt: &(impl Abort + AllocGlobal), words: [u64; 5], lent: usize) -> bool {
    let mut h = host_of(rt, words);
    check(rt, takes(&mut h) && came_with(&h, lent));
    let held = h.owns(0);
    drop(h);
    held
}

// A range of 1 to 4,096 bytes from a page's start lends that page. A longer one, an empty one, one from a later byte and a page that the channel hasn't lend
// nothing.
#[test]
fn only_a_range_of_a_page_is_lent(rt: HostRuntime) {
    check(&rt, host_takes(&rt, request(0, 3), 3));
    check(&rt, host_takes(&rt, request(0, 512), 512));
    check(&rt, !host_takes(&rt, request(0, 513), 0));
    check(&rt, !host_takes(&rt, request(0, 0), 0));
    check(&rt, !host_takes(&rt, request(2, 3), 0));
    let [kind, tid, ranges, range, page] = request(0, 3);
    let later = range | 8 << 32;
    check(&rt, !host_takes(&rt, [kind, tid, ranges, later, page], 0));
}

// A page of its own lends nothing to an end.
#[test]
fn an_end_does_not_hold_its_own_page(rt: HostRuntime) {
    let mut told = memory(&rt);
    told.put(Place::Write(Ring::ToGuest), 48);
    puts(&mut told, Ring::ToGuest, 0, request(0, 3));
    let mut g = end(&rt, Side::Guest, told);
    check(&rt, takes(&mut g) && came_with(&g, 0) && g.owns(0));
    drop(g);
}

// A page that is held isn't held under another id.
#[test]
fn a_page_is_held_once(rt: HostRuntime) {
    let mut told = memory(&rt);
    told.put(Place::Write(Ring::ToHost), 96);
    puts(&mut told, Ring::ToHost, 0, request(0, 3));
    let [kind, _, ranges, range, page] = request(0, 2);
    puts(&mut told, Ring::ToHost, 48, [kind, 9, ranges, range, page]);
    let mut h = end(&rt, Side::Host, told);
    check(&rt, takes(&mut h) && came_with(&h, 3));
    check(&rt, takes(&mut h) && came_with(&h, 0));
    check(&rt, h.owns(0));
    drop(h);
}

// A completion with another id doesn't bring a page back, and one with its id does.
#[test]
fn only_its_completion_brings_a_page_back(rt: HostRuntime) {
    let mut told = memory(&rt);
    told.put(Place::Write(Ring::ToGuest), 48);
    told.put(Place::Cell(Ring::ToGuest, 0), 0x2_0002_000b);
    told.put(Place::Cell(Ring::ToGuest, 8), 2);
    told.put(Place::Cell(Ring::ToGuest, 24), 0x2_0002_000b);
    told.put(Place::Cell(Ring::ToGuest, 32), 1);
    let mut g = end(&rt, Side::Guest, told);
    check(&rt, sends(&mut g, &request(0, 3)) && !g.owns(0));
    check(&rt, takes(&mut g) && came_with(&g, 0) && !g.owns(0));
    check(&rt, takes(&mut g) && came_with(&g, 3) && g.owns(0));
    drop(g);
}

// The host, to which a request for the first three words of a page came, 1, 2 and 3. A word changes just before a step.
fn host_beside(rt: &(impl Abort + AllocGlobal), step: u64, place: Place, value: u64) -> End<ToldMem>
    requires { IsPlaceOf 512 2 place }
{
    let mut changes = Vec::new(rt.alloc());
    changes
        .push(Change { step, place, value })
        .expect(rt, "memory");
    let mut told = ToldMem::make(rt.alloc(), 4096, changes, 2).expect(rt, "memory");
    told.put(Place::Write(Ring::ToHost), 48);
    puts(&mut told, Ring::ToHost, 0, request(0, 3));
    told.put(Place::Page(0, 0), 1);
    told.put(Place::Page(0, 1), 2);
    told.put(Place::Page(0, 2), 3);
    end(rt, Side::Host, told)
}

// Whether a host takes the request, and these are its page words.
fn loads(mut h: End<ToldMem>, words: &[u64]) -> bool {
    takes(&mut h) && h.got().lent(0) == Some(words)
}

// Each page word is loaded once, in order: behind the 6 steps of the take, by steps 7 to 9. What changes before its step is loaded changed, and what changes
// behind it isn't seen.
#[test]
fn a_page_word_is_loaded_once(rt: HostRuntime) {
    check(
        &rt,
        loads(host_beside(&rt, 9, Place::Page(0, 2), 70), &[1, 2, 70]),
    );
    check(
        &rt,
        loads(host_beside(&rt, 8, Place::Page(0, 0), 70), &[1, 2, 3]),
    );
    check(
        &rt,
        loads(host_beside(&rt, 7, Place::Page(0, 0), 70), &[70, 2, 3]),
    );
}
