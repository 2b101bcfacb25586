//! The step that a machine names.
ghost use Rattle.std.specs.Prelude.{◌≡◌, ℕ, Some};
ghost use Rattle.ring_machine.specs.Steps.{IsSound, next_at, next_of};
ghost use Rattle.ring_machine.specs.declared.machine.Stage.TheVariants.{SendCell, SendWrite, TakeCell};

use crate::machine::{EndMachine, Stage};
use crate::place::{Op, Place};
use crate::ring::{incoming, outgoing, peer, step_ahead};

// A word of the packet, or after all of them the trailer: the write index before the send, in bytes, in its upper half.
#[inline(always)]
fn store_cell(m: &EndMachine, packet: &[u64]) -> Op
    requires { IsSound m.now }
    ensures { Some result ≡ next_at SendCell m.now packet.now }
{
    let k = step_ahead(m.cells, m.write, m.done);
    let v = if m.done < m.len {
        match packet.get(m.done as usize) {
            Some(v) => *v,
            None => 0,
        }
    } else {
        m.write as u64 * 34359738368
    };
    Op::Store(Place::Cell(outgoing(m.side), 8 * k), v)
}

// The write index past the packet and its trailer.
#[inline(always)]
fn store_write(m: &EndMachine, packet: &[u64]) -> Op
    requires { IsSound m.now }
    ensures { Some result ≡ next_at SendWrite m.now packet.now }
{
    let k = step_ahead(m.cells, m.write, m.len + 1);
    Op::Store(Place::Write(outgoing(m.side)), 8 * k as u64)
}

// The next cell of the packet that is taken.
#[inline(always)]
fn load_cell(m: &EndMachine, packet: &[u64]) -> Op
    requires { IsSound m.now }
    ensures { Some result ≡ next_at TakeCell m.now packet.now }
{
    let k = step_ahead(m.cells, m.read, m.done);
    Op::Load(Place::Cell(incoming(m.side), 8 * k))
}

// The step of any stage. It stands apart, so that the frequent stages are small enough to be inlined.
#[inline(never)]
fn next_rest(m: EndMachine, packet: &[u64]) -> Option<Op>
    requires { IsSound m }
    ensures { result ≡ next_of m packet.now }
{
    match m.stage {
        Stage::Idle => None,
        Stage::Stopped => None,
        Stage::SendRead => Some(Op::Load(Place::Read(outgoing(m.side)))),
        Stage::SendCell => Some(store_cell(&m, packet)),
        Stage::SendWrite => Some(store_write(&m, packet)),
        Stage::SendMask => Some(Op::Load(Place::Mask(outgoing(m.side)))),
        Stage::SendLook => Some(Op::Load(Place::Read(outgoing(m.side)))),
        Stage::SendRaise => Some(Op::Raise(peer(m.side))),
        Stage::TakeWrite => Some(Op::Load(Place::Write(incoming(m.side)))),
        Stage::TakeFirst => Some(Op::Load(Place::Cell(incoming(m.side), 8 * m.read))),
        Stage::TakeCell => Some(load_cell(&m, packet)),
        Stage::CommitRead => Some(Op::Store(Place::Read(incoming(m.side)), 8 * m.read as u64)),
        Stage::CommitFeature => Some(Op::Load(Place::Feature(incoming(m.side)))),
        Stage::CommitPending => Some(Op::Load(Place::Pending(incoming(m.side)))),
        Stage::CommitWrite => Some(Op::Load(Place::Write(incoming(m.side)))),
        Stage::CommitRaise => Some(Op::Raise(peer(m.side))),
        Stage::ArmPending => Some(Op::Store(Place::Pending(outgoing(m.side)), m.want as u64)),
        Stage::ArmMask => Some(Op::Store(Place::Mask(incoming(m.side)), 0)),
        Stage::ArmWrite => Some(Op::Load(Place::Write(incoming(m.side)))),
        Stage::ArmRead => Some(Op::Load(Place::Read(outgoing(m.side)))),
        Stage::ArmMark => Some(Op::Load(Place::Mark(peer(m.side)))),
        Stage::ArmUndoMask => Some(Op::Store(Place::Mask(incoming(m.side)), 1)),
        Stage::ArmUndoPending => Some(Op::Store(Place::Pending(outgoing(m.side)), 0)),
        Stage::PollSignal => Some(Op::TakeSignal(m.side)),
        Stage::PollMask => Some(Op::Store(Place::Mask(incoming(m.side)), 1)),
        Stage::PollPending => Some(Op::Store(Place::Pending(outgoing(m.side)), 0)),
        Stage::MarkStore => Some(Op::StoreMark(m.side)),
        Stage::MarkRaise => Some(Op::Raise(peer(m.side))),
        Stage::PeerMark => Some(Op::Load(Place::Mark(peer(m.side)))),
    }
}

/// The next step of a machine, or none exactly where no command is under way. The stages that a driver has loops for come first, inlined into those.
#[inline(always)]
pub(crate) fn next_machine(m: &EndMachine, packet: &[u64]) -> Option<Op>
    requires { IsSound m.now }
    ensures { result ≡ next_of m.now packet.now }
{
    match m.stage {
        Stage::SendRead => Some(Op::Load(Place::Read(outgoing(m.side)))),
        Stage::SendCell => Some(store_cell(m, packet)),
        Stage::SendWrite => Some(store_write(m, packet)),
        Stage::SendMask => Some(Op::Load(Place::Mask(outgoing(m.side)))),
        Stage::TakeWrite => Some(Op::Load(Place::Write(incoming(m.side)))),
        Stage::TakeFirst => Some(Op::Load(Place::Cell(incoming(m.side), 8 * m.read))),
        Stage::TakeCell => Some(load_cell(m, packet)),
        Stage::CommitRead => Some(Op::Store(Place::Read(incoming(m.side)), 8 * m.read as u64)),
        Stage::CommitFeature => Some(Op::Load(Place::Feature(incoming(m.side)))),
        Stage::CommitPending => Some(Op::Load(Place::Pending(incoming(m.side)))),
        Stage::ArmPending => Some(Op::Store(Place::Pending(outgoing(m.side)), m.want as u64)),
        Stage::ArmMask => Some(Op::Store(Place::Mask(incoming(m.side)), 0)),
        Stage::ArmWrite => Some(Op::Load(Place::Write(incoming(m.side)))),
        Stage::ArmRead => Some(Op::Load(Place::Read(outgoing(m.side)))),
        Stage::ArmMark => Some(Op::Load(Place::Mark(peer(m.side)))),
        Stage::PollSignal => Some(Op::TakeSignal(m.side)),
        Stage::PollMask => Some(Op::Store(Place::Mask(incoming(m.side)), 1)),
        Stage::SendLook => Some(Op::Load(Place::Read(outgoing(m.side)))),
        Stage::SendRaise => Some(Op::Raise(peer(m.side))),
        _ => next_rest(*m, packet),
    }
}
