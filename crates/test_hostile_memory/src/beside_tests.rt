//! An end beside a hand that writes from a second thread.
ghost use Rattle.std.specs.Prelude.{◌≡◌};

use crate::check::check;
use crate::opened::opened;
use hostile_memory::{OpenEnd, Scribbler};
use ring_core::{Armed, Bad, Place, Ring, Side, TakeRefusal, Why, may_take};
use std::alloc::AllocGlobal;
use std::process::Abort;
use std::sync::Wait;
use std::thread::{Threads, join};

// How many takes a channel sees, and how often its hand writes.
const TAKES: u32 = 10;

const WRITES: u32 = 200;

// The next number of a row.
fn next(x: u64) -> u64 {
    x.wrapping_mul(6_364_136_223_846_793_005)
        .wrapping_add(1_442_695_040_888_963_407)
}

// Writes a write index, of which one in eight is an index, and a first word.
fn scribble(mut hand: Scribbler, seed: u64)
    requires { hand.cells ≡ 512 }
{
    let mut x = seed;
    for _ in 0..WRITES {
        x = next(x);
        hand.put(Place::Write(Ring::ToGuest), x >> 52);
        hand.put(Place::Cell(Ring::ToGuest, 0), x >> 16);
    }
}

// Whether the value that the end keeps breaks the rule that it names, for a ring of 4,096 bytes.
fn breaks(bad: Bad) -> bool {
    match bad {
        Bad::Index { value } => value % 8 != 0 || value >= 4096,
        Bad::Length { len8, avail } => len8 < 2 || 8 * len8 as u32 + 8 > avail,
        Bad::Offset { offset8, len8 } => offset8 < 2 || offset8 > len8,
    }
}

// Whether a take tells that the end stopped for this.
fn is_stopped(end: &mut OpenEnd, bad: Bad) -> bool {
    let why = Why::Malformed(bad);
    may_take(end) && end.take().err() == Some(TakeRefusal::Stopped { why })
}

// Takes until the end stops, at most `TAKES` times. Gives how often, or none where a take told something untrue.
fn takes(end: &mut OpenEnd) -> Option<u32> {
    for made in 0..TAKES {
        if !may_take(end) {
            return None;
        }
        match end.take_in() {
            Ok(()) => {}
            Err(TakeRefusal::Empty { .. }) => {}
            Err(TakeRefusal::Malformed(bad)) => {
                return if breaks(bad) && is_stopped(end, bad) {
                    Some(made + 1)
                } else {
                    None
                };
            }
            Err(TakeRefusal::Stopped { .. }) => return None,
        }
    }
    Some(TAKES)
}

// The same, and the end goes.
fn takes_all(mut end: OpenEnd) -> Option<u32> {
    let made = takes(&mut end);
    drop(end);
    made
}

// How many takes an end makes beside a hand on a second thread.
fn takes_beside<R: Threads + Wait + Abort + AllocGlobal + Sync>(rt: &R, seed: u64) -> Option<u32> {
    let (end, hand) = opened(rt);
    let (made, _) = join(
        rt,
        move || { takes_all(end) },
        move ||
            requires { hand.cells ≡ 512 }
        { scribble(hand, seed) },
    );
    made
}

// A thousand takes, each beside a hand that writes: a new channel comes wherever an end has stopped.
#[test]
fn a_thousand_takes_beside_a_hand(rt: HostRuntime) {
    let mut left: u32 = 1000;
    let mut seed = 1;
    for _ in 0..1000 {
        let Some(made) = takes_beside(&rt, seed) else {
            check(&rt, false);
            return;
        };
        seed = next(seed);
        left = left.saturating_sub(made);
        if left == 0 {
            return;
        }
    }
    check(&rt, false);
}

// Arms, sleeps until the signal was up, and tells whether the end is awake again.
fn wakes<R: Wait>(rt: &R, end: &mut OpenEnd) -> bool {
    if !end.is_ready() || end.is_due() {
        return false;
    }
    end.commit();
    let armed = end.arm(None);
    if matches!(armed, Armed::Asleep) && end.is_asleep() {
        ring_sleep::sleep(end, rt);
        return !end.is_asleep();
    }
    false
}

// The same, and the end goes.
fn wakes_once<R: Wait>(rt: &R, mut end: OpenEnd) -> bool {
    let awake = wakes(rt, &mut end);
    drop(end);
    awake
}

// Raises the guest's signal.
fn raise(mut hand: Scribbler) {
    hand.put(Place::Signal(Side::Guest), 1);
}

// A store to the signal wakes an end that sleeps on it.
#[test]
fn a_hand_wakes_an_end(rt: HostRuntime) {
    let (end, hand) = opened(&rt);
    let run = &rt;
    let (awake, _) = join(
        run,
        move || { wakes_once(run, end) },
        move || { raise(hand) },
    );
    check(&rt, awake);
}
