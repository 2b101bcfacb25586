//! A worker that serves a register beside a hand that writes from a second thread: packets as a peer sends them, and garbage.
ghost use Rattle.std.specs.Prelude.{◌≡◌, ◌+◌, ◌*◌, ◌<◌, ◌%◌};
ghost use Rattle.io_edge.specs.declared.side.Side.TheVariants.{Guest};
ghost use Rattle.ring_seat.specs.Whole.{new_paged};

use crate::check::check;
use crossbeam_utils::Backoff;
use example_device::{Served, serve_register};
use hostile_memory::{OpenEnd, OpenMem, OpenSeat, Scribbler};
use ring_core::{Bad, Place, Ring, Side, Why};
use std::alloc::{AllocGlobal, Global};
use std::process::Abort;
use std::sync::Wait;
use std::thread::{Threads, join};
use worker_port::Ended;

// How many channels are opened, and how many steps the hand of each makes.
const CHANNELS: u32 = 20;

const STEPS: u32 = 5000;

// In-band data of three words, one of them the payload.
const HEAD: u64 = 12_885_032_966;

// The cells of a packet with its trailer.
const CELLS: u32 = 4;

// How often a hand looks for room before it takes the worker for gone.
const LOOKS: u32 = 20;

// The next number of a row.
fn next(x: u64) -> u64 {
    x.wrapping_mul(6_364_136_223_846_793_005)
        .wrapping_add(1_442_695_040_888_963_407)
}

// The cell of a ring of 512 that is so many behind another one.
fn ahead(at: u32, by: u32) -> u32
    ensures { result < 512 }
{
    at.wrapping_add(by) % 512
}

// Stores a word of the packet that begins at this cell.
fn put_word(hand: &mut Scribbler, at: u32, i: u32, word: u64)
    requires { hand.old.cells ≡ 512 }
    ensures { hand.new.cells ≡ 512 }
{
    hand.put(Place::Cell(Ring::ToGuest, 8 * ahead(at, i)), word);
}

// Whether the ring has room for a packet more, by the read index that stands there.
fn has_room(hand: &mut Scribbler, at: u32) -> bool
    requires { hand.old.cells ≡ 512 }
    ensures { hand.new.cells ≡ 512 }
{
    let read = (hand.look(Place::Read(Ring::ToGuest)) % 4096) as u32 / 8;
    let used = at.wrapping_add(512).wrapping_sub(read) % 512;
    used < 512 - CELLS
}

// Waits for that, until it was looked for so often.
fn waits_for_room(hand: &mut Scribbler, at: u32) -> bool
    requires { hand.old.cells ≡ 512 }
    ensures { hand.new.cells ≡ 512 }
{
    let backoff = Backoff::new();
    for _ in 0..LOOKS {
        if has_room(hand, at) {
            return true;
        }
        backoff.snooze();
    }
    false
}

// Sends a store of this value, or a packet with another first word, where the ring has room. Gives the cell that comes next.
fn send(hand: &mut Scribbler, at: u32, head: u64, value: u64) -> u32
    requires { hand.old.cells ≡ 512 }
    ensures { hand.new.cells ≡ 512 }
{
    if !has_room(hand, at) {
        return at;
    }
    put_word(hand, at, 0, head);
    put_word(hand, at, 1, 1);
    put_word(hand, at, 2, value);
    let behind = ahead(at, CELLS);
    hand.put(Place::Write(Ring::ToGuest), 8 * behind as u64);
    behind
}

// Takes all that came back, without a look at it.
fn take_all(hand: &mut Scribbler)
    requires { hand.old.cells ≡ 512 }
    ensures { hand.new.cells ≡ 512 }
{
    let write = hand.look(Place::Write(Ring::ToHost));
    hand.put(Place::Read(Ring::ToHost), write);
}

// Of 4,096 steps one stores a write index of any form, one a read index of any form, one sends a packet with any first word, and all others send stores, while the
// worker takes them. Then the hand says that it sends nothing more.
fn scribble(mut hand: Scribbler, seed: u64)
    requires { hand.cells ≡ 512 }
{
    let mut x = seed;
    let mut at = 0;
    let mut gone = false;
    for _ in 0..STEPS {
        x = next(x);
        if !gone {
            gone = !waits_for_room(&mut hand, at);
        }
        match x >> 52 {
            0 => hand.put(Place::Write(Ring::ToGuest), x >> 20),
            1 => hand.put(Place::Read(Ring::ToHost), x >> 20),
            2 => at = send(&mut hand, at, x >> 3, x),
            _ => {
                at = send(&mut hand, at, HEAD, x);
                take_all(&mut hand);
            }
        }
        if !gone {
            hand.put(Place::Signal(Side::Guest), 1);
        }
    }
    hand.put(Place::Mark(Side::Host), 1);
    hand.put(Place::Signal(Side::Guest), 1);
}

// Whether a value breaks the rule that it is told to break, for a ring of 4,096 bytes.
fn breaks(why: Why) -> bool {
    match why {
        Why::BadPeer { index } => index % 8 != 0 || index >= 4096,
        Why::Malformed(Bad::Index { value }) => value % 8 != 0 || value >= 4096,
        Why::Malformed(Bad::Length { len8, avail }) => len8 < 2 || 8 * len8 as u32 + 8 > avail,
        Why::Malformed(Bad::Offset { offset8, len8 }) => offset8 < 2 || offset8 > len8,
    }
}

// Whether a worker ended as one may beside such a hand.
fn has_ended(ended: Ended) -> bool {
    match ended {
        Ended::Broken { why } => breaks(why),
        Ended::PeerMarked => true,
        Ended::Marked | Ended::Room { .. } => false,
    }
}

// Whether the history is that of a register that held 0 first, and was asked to store what the first packets say that the end took.
fn is_history(served: &Served<OpenSeat>) -> bool {
    let entries = served.history.entries();
    let mut held = 0;
    for i in 0..entries.len() {
        let Some(packet) = served.end.got().get(i) else {
            return false;
        };
        let value = if packet.len() > 2 { packet[2] } else { 0 };
        if entries[i].request != value || entries[i].reply != held {
            return false;
        }
        held = value;
    }
    true
}

// How many stores were served, or none where something isn't as it must be.
fn count(served: Served<OpenSeat>) -> Option<usize> {
    if has_ended(served.ended) && is_history(&served) {
        Some(served.history.entries().len())
    } else {
        None
    }
}

// Serves beside a hand on a second thread, and gives how many stores were served, or none where something isn't as it must be.
fn serve_beside<R: Threads + Wait + AllocGlobal + Sync>(rt: &R, seed: u64) -> Option<usize> {
    let (end, hand) = OpenMem::make(rt.alloc(), 1, 0).ok()?;
    let alloc = rt.alloc();
    let (served, _) = join(
        rt,
        move ||
            requires { end.state ≡ new_paged 512 0 Guest }
        { serve_register(rt, alloc, end, Side::Guest, STEPS).ok() },
        move ||
            requires { hand.cells ≡ 512 }
        { scribble(hand, seed) },
    );
    count(served?)
}

// 100,000 steps of hands, each of 5,000 beside a worker on a channel of its own.
#[test]
fn a_register_beside_a_hand(rt: HostRuntime) {
    let mut seed = 1;
    let mut stored: usize = 0;
    for _ in 0..CHANNELS {
        let Some(count) = serve_beside(&rt, seed) else {
            check(&rt, false);
            return;
        };
        seed = next(seed);
        stored = stored.saturating_add(count);
    }
    check(&rt, stored > 200);
}
