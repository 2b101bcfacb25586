//! A step as plain numbers.
ghost use Rattle.std.specs.Prelude.{◌≡◌};
ghost use Rattle.vmbus_ring_c.specs.Ends.{number_of_ring, step_at, step_of};

use crate::numbers::side_number;
use ring_machine::{Op, Place, Ring};

/// A step that C makes.
#[repr(C)]
#[derive(Clone, Copy)]
pub struct VmbusStep {
    /// 1 loads a word, 2 stores one, 3 raises a signal (stores 1 there), 4 takes one (exchanges it with 0), 5 stores a mark (1).
    pub op: u32,
    /// 1 write, 2 read, 3 mask, 4 pending, 5 feature, 6 a cell, 7 a signal, 8 a mark, 9 a word of a data page, which no end of this library has.
    pub place: u32,
    /// Of a ring: 0 is the one that the host empties, 1 the guest's. Of a signal or a mark: 0 is the guest's, 1 the host's. Of a page its number.
    pub which: u32,
    /// The offset of a cell in bytes, or which word of a page.
    pub at: u32,
    /// What is stored.
    pub value: u64,
}

fn ring_number(ring: Ring) -> u32
    ensures { result ≡ number_of_ring ring }
{
    match ring {
        Ring::ToHost => 0,
        Ring::ToGuest => 1,
    }
}

// A step on a place.
fn step_at(op: u32, place: Place, value: u64) -> VmbusStep
    ensures { result ≡ step_at op place value }
{
    let (place, which, at) = match place {
        Place::Write(ring) => (1, ring_number(ring), 0),
        Place::Read(ring) => (2, ring_number(ring), 0),
        Place::Mask(ring) => (3, ring_number(ring), 0),
        Place::Pending(ring) => (4, ring_number(ring), 0),
        Place::Feature(ring) => (5, ring_number(ring), 0),
        Place::Cell(ring, at) => (6, ring_number(ring), at),
        Place::Signal(side) => (7, side_number(side), 0),
        Place::Mark(side) => (8, side_number(side), 0),
        Place::Page(page, word) => (9, page, word),
    };
    VmbusStep {
        op,
        place,
        which,
        at,
        value,
    }
}

// The numbers of a step.
pub(crate) fn step(op: Op) -> VmbusStep
    ensures { result ≡ step_of op }
{
    match op {
        Op::Load(place) => step_at(1, place, 0),
        Op::Store(place, value) => step_at(2, place, value),
        Op::Raise(side) => step_at(3, Place::Signal(side), 1),
        Op::TakeSignal(side) => step_at(4, Place::Signal(side), 0),
        Op::StoreMark(side) => step_at(5, Place::Mark(side), 1),
    }
}
