//! Calls of ends over told and solo memory, beside answers and numbers of steps that were worked out by hand.
ghost use Rattle.std.specs.Prelude.{◌≡◌};
ghost use Rattle.ring_machine.specs.Places.{IsPlaceOf};

use crate::check::check;
use crate::ends::solo_end;
use crate::packet::packet;
use ring_core::{
    Bad, Change, End, Place, Ring, Room, Seatlike, SendRefusal, Side, Signalled, SoloMem,
    TakeRefusal, ToldMem, Why, may_send, may_take,
};
use std::alloc::AllocGlobal;
use std::process::Abort;

// The first word of a packet of 3 words: in-band data whose payload begins at word 2.
const FIRST: u64 = 0x0000_0003_0002_0006;

// That of a packet of 11 words, which with its trailer takes 96 bytes.
const LONGER: u64 = 0x0000_000b_0002_0006;

// That packet, where its other words are 0.
const LONGEST: [u64; 11] = [LONGER, 0, 0, 0, 0, 0, 0, 0, 0, 0, 0];

// Whether a send may be made, and answers so.
fn sends<S: Seatlike>(e: &mut End<S>, p: &[u64], want: Signalled) -> bool {
    if !may_send(e, p) {
        return false;
    }
    match e.send(p) {
        Ok(signalled) => signalled == want,
        Err(_) => false,
    }
}

// Whether a send may be made, and is refused so.
fn refuses_send<S: Seatlike>(e: &mut End<S>, p: &[u64], want: SendRefusal) -> bool {
    if !may_send(e, p) {
        return false;
    }
    match e.send(p) {
        Ok(_) => false,
        Err(refusal) => refusal == want,
    }
}

// Whether a take may be made, and gives these words.
fn takes<S: Seatlike>(e: &mut End<S>, want: &[u64]) -> bool {
    if !may_take(e) {
        return false;
    }
    match e.take() {
        Ok(taken) => taken.words() == want,
        Err(_) => false,
    }
}

// Whether a take may be made, and is refused so.
fn refuses_take<S: Seatlike>(e: &mut End<S>, want: TakeRefusal) -> bool {
    if !may_take(e) {
        return false;
    }
    match e.take() {
        Ok(_) => false,
        Err(refusal) => refusal == want,
    }
}

// Whether a commit may be made, and answers so.
fn commits<S: Seatlike>(e: &mut End<S>, want: Signalled) -> bool {
    e.is_ready() && !e.is_due() && e.commit() == want
}

// A told memory of one page that a peer changes once.
fn changed_once(rt: &(impl Abort + AllocGlobal), step: u64, place: Place, value: u64) -> ToldMem
    requires { IsPlaceOf 512 0 place }
    ensures { (result.cells ≡ 512) × (result.pages ≡ 0) }
{
    let mut changes = Vec::new(rt.alloc());
    changes
        .push(Change { step, place, value })
        .expect(rt, "memory");
    ToldMem::make(rt.alloc(), 4096, changes, 0).expect(rt, "memory")
}

// A told memory of one page that no peer changes.
fn unchanged(rt: &(impl Abort + AllocGlobal)) -> ToldMem
    ensures { (result.cells ≡ 512) × (result.pages ≡ 0) }
{
    ToldMem::make(rt.alloc(), 4096, Vec::new(rt.alloc()), 0).expect(rt, "memory")
}

// The guest's end over a told memory, with room for 8 packets of 1,024 words.
fn guest(rt: &(impl Abort + AllocGlobal), told: ToldMem) -> End<ToldMem>
    requires { (told.cells ≡ 512) × (told.pages ≡ 0) }
{
    let mut e = End::make(rt.alloc(), Side::Guest, 4096, told, 0).expect(rt, "memory");
    let room = Room {
        packets: 8,
        words: 1024,
    };
    e.reserve(room, room).expect(rt, "memory");
    e
}

fn steps(e: &End<ToldMem>) -> u64 {
    e.seat().steps()
}

// A send answers so, after so many steps in all.
fn sent(rt: &impl Abort, e: &mut End<ToldMem>, p: &[u64], want: Signalled, count: u64) {
    check(rt, sends(e, p, want));
    check(rt, steps(e) == count);
}

// A send is refused so, after so many steps in all.
fn unsent(rt: &impl Abort, e: &mut End<ToldMem>, p: &[u64], want: SendRefusal, count: u64) {
    check(rt, refuses_send(e, p, want));
    check(rt, steps(e) == count);
}

// A take gives these words, after so many steps in all.
fn taken(rt: &impl Abort, e: &mut End<ToldMem>, want: &[u64], count: u64) {
    check(rt, takes(e, want));
    check(rt, steps(e) == count);
}

// A take is refused so, after so many steps in all.
fn untaken(rt: &impl Abort, e: &mut End<ToldMem>, want: TakeRefusal, count: u64) {
    check(rt, refuses_take(e, want));
    check(rt, steps(e) == count);
}

// A commit answers so, after so many steps in all.
fn committed(rt: &impl Abort, e: &mut End<ToldMem>, want: Signalled, count: u64) {
    check(rt, commits(e, want));
    check(rt, steps(e) == count);
}

#[test]
fn a_ring_is_never_quite_full(rt: HostRuntime) {
    let mut e = guest(&rt, unchanged(&rt));
    let long = packet(&rt, 510, 7);
    let short = packet(&rt, 2, 9);
    check(&rt, e.fits(510) && !e.fits(511));
    sent(&rt, &mut e, long.as_slice(), Signalled::Quiet, 514);
    let full = SendRefusal::Full { free: 8, need: 24 };
    unsent(&rt, &mut e, short.as_slice(), full, 515);
    drop(e);
}

// The trailer of the second packet stands where it goes on at the ring's first cell.
#[test]
fn a_packet_goes_on_at_the_first_cell(rt: HostRuntime) {
    let told = changed_once(&rt, 515, Place::Read(Ring::ToHost), 4088);
    let mut e = guest(&rt, told);
    let long = packet(&rt, 510, 7);
    let short = packet(&rt, 3, 9);
    sent(&rt, &mut e, long.as_slice(), Signalled::Quiet, 514);
    sent(&rt, &mut e, short.as_slice(), Signalled::Quiet, 521);
    check(&rt, cell_16(&e) == 0x0000_0ff8_0000_0000);
    drop(e);
}

fn cell_16(e: &End<ToldMem>) -> u64 {
    if e.cells() < 3 {
        return 0;
    }
    e.seat().look(Place::Cell(Ring::ToHost, 16))
}

// A take that meets this write index and this first word is refused so after so many steps, and the next one without a step.
fn stops(rt: &(impl Abort + AllocGlobal), write: u64, first: u64, bad: Bad, count: u64) {
    let mut told = unchanged(rt);
    told.put(Place::Write(Ring::ToGuest), write);
    told.put(Place::Cell(Ring::ToGuest, 0), first);
    let mut e = guest(rt, told);
    let why = Why::Malformed(bad);
    untaken(rt, &mut e, TakeRefusal::Malformed(bad), count);
    untaken(rt, &mut e, TakeRefusal::Stopped { why }, count);
    check(rt, !e.is_ready());
    drop(e);
}

#[test]
fn packets_in_no_form_stop_an_end(rt: HostRuntime) {
    let short = Bad::Length { len8: 1, avail: 96 };
    stops(&rt, 96, 0x0000_0001_0002_0006, short, 2);
    let long = Bad::Length {
        len8: 12,
        avail: 96,
    };
    stops(&rt, 96, 0x0000_000c_0002_0006, long, 2);
    let outside = Bad::Offset {
        offset8: 4,
        len8: 3,
    };
    stops(&rt, 96, 0x0000_0003_0004_0006, outside, 2);
    stops(&rt, 4097, 0, Bad::Index { value: 4097 }, 1);
}

// The longest packet that the write index leaves room for: 11 words and a trailer in 96 bytes.
#[test]
fn the_longest_packet_is_taken(rt: HostRuntime) {
    let mut told = unchanged(&rt);
    told.put(Place::Write(Ring::ToGuest), 96);
    told.put(Place::Cell(Ring::ToGuest, 0), LONGER);
    let mut e = guest(&rt, told);
    taken(&rt, &mut e, &LONGEST, 12);
    drop(e);
}

// A read index that is a multiple of 8, but of no cell.
#[test]
fn a_wrong_read_index_stops_a_sender(rt: HostRuntime) {
    let mut told = unchanged(&rt);
    told.put(Place::Read(Ring::ToHost), 4096);
    let mut e = guest(&rt, told);
    let p = packet(&rt, 2, 9);
    unsent(
        &rt,
        &mut e,
        p.as_slice(),
        SendRefusal::BadPeer { index: 4096 },
        1,
    );
    let why = Why::BadPeer { index: 4096 };
    unsent(&rt, &mut e, p.as_slice(), SendRefusal::Stopped { why }, 1);
    drop(e);
}

// A memory with a packet of 3 words, whose peer shortens it once its first word is loaded.
fn shortened(rt: &(impl Abort + AllocGlobal)) -> ToldMem
    ensures { (result.cells ≡ 512) × (result.pages ≡ 0) }
{
    let mut told = changed_once(rt, 3, Place::Cell(Ring::ToGuest, 0), 0x0000_0002_0002_0006);
    told.put(Place::Write(Ring::ToGuest), 32);
    told.put(Place::Cell(Ring::ToGuest, 0), FIRST);
    told
}

#[test]
fn a_length_is_loaded_once(rt: HostRuntime) {
    let mut e = guest(&rt, shortened(&rt));
    taken(&rt, &mut e, &[FIRST, 0, 0], 4);
    committed(&rt, &mut e, Signalled::Quiet, 7);
    untaken(&rt, &mut e, TakeRefusal::Empty { at: 32 }, 8);
    check(&rt, e.is_ready());
    drop(e);
}

// Exchanges the memories of two ends whose rings have one size.
fn swap(rt: &impl Abort, e: &mut End<SoloMem>, other: &mut End<SoloMem>) {
    check(rt, e.cells() == other.cells() && e.pages() == other.pages());
    e.swap_memory(other);
}

fn has_room(spare: Room, packets: u64, words: u64) -> bool {
    spare.packets >= packets && spare.words >= words
}

// Whether the second room is less than the first by so much.
fn is_less(before: Room, after: Room, packets: u64, words: u64) -> bool {
    before.packets.wrapping_sub(after.packets) == packets
        && before.words.wrapping_sub(after.words) == words
}

// A send of 3 words takes room for one packet and 3 words from an end's list.
#[test]
fn room_is_made_and_used(rt: HostRuntime) {
    let room = Room {
        packets: 2,
        words: 1024,
    };
    let mut e = solo_end(&rt, Side::Guest, room);
    let before = e.spare_sent();
    check(&rt, has_room(before, 2, 1024));
    check(&rt, has_room(e.spare_got(), 2, 1024));
    check(&rt, sends(&mut e, &[FIRST, 7, 9], Signalled::Quiet));
    check(&rt, is_less(before, e.spare_sent(), 1, 3));
    drop(e);
}

// Whether the guest sends two packets.
fn goes_out(g: &mut End<SoloMem>) -> bool {
    sends(g, &[FIRST, 7, 9], Signalled::Quiet) && sends(g, &[FIRST, 8, 10], Signalled::Quiet)
}

// Whether the host takes both, gives them back and sends one.
fn comes_in(h: &mut End<SoloMem>) -> bool {
    let taken = takes(h, &[FIRST, 7, 9]) && takes(h, &[FIRST, 8, 10]);
    let empty = refuses_take(h, TakeRefusal::Empty { at: 64 });
    taken && empty && commits(h, Signalled::Quiet) && sends(h, &[FIRST, 1, 2], Signalled::Quiet)
}

// The guest sends two packets, the host takes both, gives them back and sends one, and the guest takes that.
fn crosses(rt: &impl Abort, g: &mut End<SoloMem>, h: &mut End<SoloMem>) {
    check(rt, goes_out(g));
    swap(rt, g, h);
    check(rt, comes_in(h));
    swap(rt, g, h);
    check(rt, takes(g, &[FIRST, 1, 2]));
}

// Whether the guest has sent both packets, and got one.
fn has_both(g: End<SoloMem>) -> bool {
    let (memory, sent, got) = g.into_parts();
    drop(memory);
    sent.len() == 2
        && got.len() == 1
        && sent.get(1) == Some(&[FIRST, 8, 10])
        && got.get(0) == Some(&[FIRST, 1, 2])
}

#[test]
fn packets_go_across_both_ways(rt: HostRuntime) {
    let room = Room {
        packets: 4,
        words: 2048,
    };
    let mut g = solo_end(&rt, Side::Guest, room);
    let mut h = solo_end(&rt, Side::Host, room);
    crosses(&rt, &mut g, &mut h);
    check(&rt, has_both(g));
    drop(h);
}

// Whether the signal of the host is up.
fn is_signalled(e: &End<ToldMem>) -> bool {
    e.seat().look(Place::Signal(Side::Host)) != 0
}

// A packet into an empty ring, whose consumer wants a signal.
#[test]
fn a_send_into_an_empty_ring_signals(rt: HostRuntime) {
    let mut told = unchanged(&rt);
    told.put(Place::Mask(Ring::ToHost), 0);
    let mut e = guest(&rt, told);
    check(&rt, !is_signalled(&e));
    sent(&rt, &mut e, &[FIRST, 7, 9], Signalled::Raised, 9);
    check(&rt, is_signalled(&e));
    sent(&rt, &mut e, &[FIRST, 7, 9], Signalled::Quiet, 17);
    drop(e);
}

// In a memory with 4,000 bytes for the guest, the first of which are a packet of 11 words, and a producer that waits for this room, the commit after a
// take of that packet answers so, after so many steps in all.
fn commits_so(rt: &(impl Abort + AllocGlobal), pending: u64, want: Signalled, count: u64) {
    let mut told = unchanged(rt);
    told.put(Place::Write(Ring::ToGuest), 4000);
    told.put(Place::Cell(Ring::ToGuest, 0), LONGER);
    told.put(Place::Pending(Ring::ToGuest), pending);
    let mut e = guest(rt, told);
    taken(rt, &mut e, &LONGEST, 12);
    committed(rt, &mut e, want, count);
    drop(e);
}

// The commit gives 96 bytes back to a ring with 96 bytes of room.
#[test]
fn a_commit_that_makes_room_signals(rt: HostRuntime) {
    commits_so(&rt, 0, Signalled::Quiet, 15);
    commits_so(&rt, 95, Signalled::Quiet, 16);
    commits_so(&rt, 96, Signalled::Raised, 17);
    commits_so(&rt, 191, Signalled::Raised, 17);
    commits_so(&rt, 192, Signalled::Quiet, 16);
}
