//! The text of a step.
ghost use Rattle.std.specs.Prelude.{◌≡◌, ◌≤◌, ◌+◌, ◌++◌, ◌∷◌, [], length};
ghost use Rattle.trace_text.specs.Steps.{side_text, ring_text, value_text, place_text, op_text, step_text};

use crate::push::{Line, push_number, push_value};
use inline_bytes::Held;
use ring_machine::{Op, Place, Ring, Side};

fn push_side(line: &mut Line, side: Side)
    requires { length line.old + 5 ≤ 96 }
    ensures text { line.new ≡ line.old ++ side_text side }
    ensures short { length line.new ≤ length line.old + 5 }
{
    match side {
        Side::Guest => line.extend(b"guest"),
        Side::Host => line.extend(b"host"),
    }
}

// A ring's name, and this behind it.
fn push_ring(line: &mut Line, ring: Ring, name: &[u8])
    requires { length line.old + 7 + length name.now ≤ 96 }
    ensures text { line.new ≡ line.old ++ ring_text ring ++ name.now }
    ensures short { length line.new ≤ length line.old + 7 + length name.now }
{
    match ring {
        Ring::ToHost => line.extend(b"tohost"),
        Ring::ToGuest => line.extend(b"toguest"),
    }
    line.extend(name);
}

// An end's name, and this behind it.
fn push_named(line: &mut Line, side: Side, name: &[u8])
    requires { length line.old + 5 + length name.now ≤ 96 }
    ensures text { line.new ≡ line.old ++ side_text side ++ name.now }
    ensures short { length line.new ≤ length line.old + 5 + length name.now }
{
    push_side(line, side);
    line.extend(name);
}

fn push_place(line: &mut Line, place: Place)
    requires { length line.old + 46 ≤ 96 }
    ensures text { line.new ≡ line.old ++ place_text place }
    ensures short { length line.new ≤ length line.old + 46 }
{
    match place {
        Place::Write(ring) => push_ring(line, ring, b".write"),
        Place::Read(ring) => push_ring(line, ring, b".read"),
        Place::Mask(ring) => push_ring(line, ring, b".mask"),
        Place::Pending(ring) => push_ring(line, ring, b".pending"),
        Place::Feature(ring) => push_ring(line, ring, b".feature"),
        Place::Cell(ring, at) => {
            push_ring(line, ring, b".cell.");
            push_number(line, u64::from(at));
        }
        Place::Signal(side) => push_named(line, side, b".signal"),
        Place::Mark(side) => push_named(line, side, b".mark"),
        Place::Page(page, word) => {
            line.extend(b"page.");
            push_number(line, u64::from(page));
            line.extend(b".");
            push_number(line, u64::from(word));
        }
    }
}

// A place and a value behind this word.
fn push_placed(line: &mut Line, name: &[u8], place: Place, value: u64)
    requires { length line.old + length name.now + 67 ≤ 96 }
    ensures text { line.new ≡ line.old ++ name.now ++ place_text place ++ 32 ∷ [] ++ value_text value }
    ensures short { length line.new ≤ length line.old + length name.now + 67 }
{
    line.extend(name);
    push_place(line, place);
    line.extend(b" ");
    push_value(line, value);
}

fn push_op(line: &mut Line, op: Op, v: u64)
    requires { length line.old + 80 ≤ 96 }
    ensures text { line.new ≡ line.old ++ op_text op v }
    ensures short { length line.new ≤ length line.old + 80 }
{
    match op {
        Op::Load(place) => push_placed(line, b"load ", place, v),
        Op::Store(place, value) => push_placed(line, b"store ", place, value),
        Op::Raise(side) => {
            line.extend(b"raise ");
            push_side(line, side);
        }
        Op::TakeSignal(_) => {
            line.extend(b"signal ");
            push_value(line, v);
        }
        Op::StoreMark(side) => {
            line.extend(b"store ");
            push_named(line, side, b".mark 1");
        }
    }
}

/// The line of a step of this end, which answered `v`.
pub fn step_line(side: Side, op: Op, v: u64) -> Held<96>
    ensures text { result ≡ step_text side op v }
    ensures short { length result ≤ 96 }
{
    let mut line = Held::empty();
    line.extend(b"step ");
    push_named(&mut line, side, b" ");
    push_op(&mut line, op, v);
    line.extend(b"\n");
    line
}
