//! A worker that serves a register beside a peer that changes one word just before a step, and then says that it sends nothing more.
ghost use Rattle.std.specs.Prelude.{◌≡◌, ◌≤◌};
ghost use Rattle.ring_machine.specs.Places.{IsPlaceOf};

use crate::check::check;
use example_device::{Served, serve_register};
use ring_core::{Bad, Change, End, Place, Ring, Side, ToldMem, Why};
use std::alloc::AllocGlobal;
use std::process::Abort;
use std::sync::Wait;
use worker_port::Ended;

// The step before which the peer says that it sends nothing more.
const LAST: u64 = 1000;

// The first word of in-band data of 3 words, with its payload behind two, and of 300 words.
const HEAD: u64 = 12_885_032_966;

const LONG: u64 = 1_288_490_319_878;

// A memory of one page, that a peer changes once before its mark.
fn changed_once(rt: &(impl Abort + AllocGlobal), change: Change) -> ToldMem
    requires place { IsPlaceOf 512 0 change.place }
    requires before { change.step ≤ 1000 }
    ensures { (result.cells ≡ 512) × (result.pages ≡ 0) }
{
    let mut changes = Vec::new(rt.alloc());
    changes.push(change).expect(rt, "memory");
    changes
        .push(Change {
            step: LAST,
            place: Place::Mark(Side::Host),
            value: 1,
        })
        .expect(rt, "memory");
    changes
        .push(Change {
            step: LAST,
            place: Place::Signal(Side::Guest),
            value: 1,
        })
        .expect(rt, "memory");
    ToldMem::make(rt.alloc(), 4096, changes, 0).expect(rt, "memory")
}

// Stores of 7 and of 8 wait in the ring, as a peer sends them.
fn send_two(told: &mut ToldMem)
    requires { (told.old.cells ≡ 512) × (told.old.pages ≡ 0) }
    ensures { (told.new.cells ≡ 512) × (told.new.pages ≡ 0) }
{
    told.put(Place::Cell(Ring::ToGuest, 0), HEAD);
    told.put(Place::Cell(Ring::ToGuest, 8), 1);
    told.put(Place::Cell(Ring::ToGuest, 16), 7);
    told.put(Place::Cell(Ring::ToGuest, 32), HEAD);
    told.put(Place::Cell(Ring::ToGuest, 40), 2);
    told.put(Place::Cell(Ring::ToGuest, 48), 8);
    told.put(Place::Write(Ring::ToGuest), 64);
}

// What a worker leaves that serves at most so many stores beside this change.
fn serve(
    rt: &(impl Abort + AllocGlobal + Wait),
    step: u64,
    place: Place,
    value: u64,
    count: u32,
) -> Served<ToldMem>
    requires place { IsPlaceOf 512 0 place }
    requires before { step ≤ 1000 }
{
    let mut told = changed_once(rt, Change { step, place, value });
    send_two(&mut told);
    let end = End::make(rt.alloc(), Side::Guest, 4096, told, 0).expect(rt, "memory");
    serve_register(rt, rt.alloc(), end, Side::Guest, count).expect(rt, "memory")
}

// Whether these were stored, in order, each answered with the value before.
fn are_stored(served: &Served<ToldMem>, values: &[u64]) -> bool {
    let entries = served.history.entries();
    if entries.len() != values.len() {
        return false;
    }
    let mut held = 0;
    for i in 0..values.len() {
        if entries[i].request != values[i] || entries[i].reply != held {
            return false;
        }
        held = values[i];
    }
    true
}

// Whether a worker ended so, and served these stores.
fn ends_so(served: Served<ToldMem>, ended: Ended, values: &[u64]) -> bool {
    served.ended == ended && are_stored(&served, values)
}

// A take loads the write index in step 1, and the three words in steps 2, 3 and 4. What stands there afterwards isn't looked at.
#[test]
fn words_that_change_behind_their_loads(rt: HostRuntime) {
    let longer = serve(&rt, 3, Place::Cell(Ring::ToGuest, 0), LONG, 9);
    check(&rt, ends_so(longer, Ended::PeerMarked, &[7, 8]));
    let other = serve(&rt, 5, Place::Cell(Ring::ToGuest, 16), 9, 9);
    check(&rt, ends_so(other, Ended::PeerMarked, &[7, 8]));
}

// And what changes before its load is taken as it is then.
#[test]
fn a_word_that_changes_before_its_load(rt: HostRuntime) {
    let other = serve(&rt, 4, Place::Cell(Ring::ToGuest, 16), 9, 9);
    check(&rt, ends_so(other, Ended::PeerMarked, &[9, 8]));
}

// A write index that is no multiple of 8, a length past what waits, and a read index past the ring end the worker, which tells the value. What it had served by then stays.
#[test]
fn values_in_no_form(rt: HostRuntime) {
    let index = serve(&rt, 1, Place::Write(Ring::ToGuest), 60, 9);
    let why = Why::Malformed(Bad::Index { value: 60 });
    check(&rt, ends_so(index, Ended::Broken { why }, &[]));
    let length = serve(&rt, 2, Place::Cell(Ring::ToGuest, 0), LONG, 9);
    let why = Why::Malformed(Bad::Length {
        len8: 300,
        avail: 64,
    });
    check(&rt, ends_so(length, Ended::Broken { why }, &[]));
    let peer = serve(&rt, 1, Place::Read(Ring::ToHost), 4096, 9);
    let why = Why::BadPeer { index: 4096 };
    check(&rt, ends_so(peer, Ended::Broken { why }, &[7]));
}

// A request past what is to be served isn't served, and ends the worker.
#[test]
fn more_requests_than_calls(rt: HostRuntime) {
    let served = serve(&rt, 1, Place::Cell(Ring::ToGuest, 4088), 1, 1);
    let ended = served.ended;
    check(&rt, matches!(ended, Ended::Room { left: 0, .. }));
    check(&rt, ends_so(served, ended, &[7]));
}
