//! What an end takes from words that a hand wrote, worked out by hand.
ghost use Rattle.std.specs.Prelude.{◌≡◌};

use crate::check::check;
use crate::opened::opened;
use hostile_memory::{OpenEnd, Scribbler};
use ring_core::{Bad, Place, Ring, TakeRefusal, Why, may_take};
use std::alloc::AllocGlobal;
use std::process::Abort;

// Writes a packet's first word and the write index.
fn write(hand: &mut Scribbler, first: u64, index: u64)
    requires { hand.old.cells ≡ 512 }
    ensures { hand.new.cells ≡ 512 }
{
    hand.put(Place::Cell(Ring::ToGuest, 0), first);
    hand.put(Place::Write(Ring::ToGuest), index);
}

// Whether a take gives this many words.
fn gives(end: &mut OpenEnd, words: usize) -> bool {
    if !may_take(end) {
        return false;
    }
    match end.take() {
        Ok(taken) => taken.words().len() == words,
        Err(_) => false,
    }
}

// How a take is refused, where it may be called.
fn refusal(end: &mut OpenEnd) -> Option<TakeRefusal> {
    if !may_take(end) {
        return None;
    }
    match end.take() {
        Ok(_) => None,
        Err(refusal) => Some(refusal),
    }
}

// A take of a channel with this first word and this write index is refused so, and each later one tells the same.
fn is_refused(rt: &(impl Abort + AllocGlobal), first: u64, index: u64, bad: Bad) -> bool {
    let (mut end, mut hand) = opened(rt);
    write(&mut hand, first, index);
    let first_refusal = refusal(&mut end) == Some(TakeRefusal::Malformed(bad));
    write(&mut hand, 0x3_0002_0006, 32);
    let why = Why::Malformed(bad);
    let later = refusal(&mut end) == Some(TakeRefusal::Stopped { why });
    drop(end);
    first_refusal && later
}

#[test]
fn a_packet_that_a_hand_wrote_is_taken(rt: HostRuntime) {
    let (mut end, mut hand) = opened(&rt);
    check(&rt, refusal(&mut end) == Some(TakeRefusal::Empty { at: 0 }));
    write(&mut hand, 0x3_0002_0006, 32);
    check(&rt, gives(&mut end, 3));
    check(
        &rt,
        refusal(&mut end) == Some(TakeRefusal::Empty { at: 32 }),
    );
    drop(end);
}

#[test]
fn a_word_in_no_form_stops_the_end(rt: HostRuntime) {
    let index = Bad::Index { value: 33 };
    check(&rt, is_refused(&rt, 0x3_0002_0006, 33, index));
    let outside = Bad::Index { value: 4096 };
    check(&rt, is_refused(&rt, 0x3_0002_0006, 4096, outside));
    let longer = Bad::Length { len8: 4, avail: 32 };
    check(&rt, is_refused(&rt, 0x4_0002_0006, 32, longer));
    let offset = Bad::Offset {
        offset8: 4,
        len8: 3,
    };
    check(&rt, is_refused(&rt, 0x3_0004_0006, 32, offset));
}

// What an end stores the hand reads, and what the hand stores it reads too.
#[test]
fn a_hand_reads_what_stands_there(rt: HostRuntime) {
    let (mut end, mut hand) = opened(&rt);
    check(&rt, hand.look(Place::Mask(Ring::ToGuest)) == 1);
    write(&mut hand, 0x3_0002_0006, 32);
    check(&rt, hand.look(Place::Write(Ring::ToGuest)) == 32);
    check(&rt, gives(&mut end, 3));
    check(&rt, hand.look(Place::Read(Ring::ToGuest)) == 0);
    if end.is_ready() && !end.is_due() {
        end.commit();
    }
    check(&rt, hand.look(Place::Read(Ring::ToGuest)) == 32);
    drop(end);
}
