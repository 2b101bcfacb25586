//! What the answer of a step makes of the machine: one function a stage.
ghost use Rattle.std.specs.Prelude.{◌≡◌, ℕ, ◌+◌, ◌*◌, ◌/◌, ◌%◌, ◌<◌, ◌^◌, true, false};
ghost use Rattle.ring_machine.specs.Steps.{IsSound, fed, fed_at, ends, breaks, undoes, makes_room, finds_room};
ghost use Rattle.ring_machine.specs.declared.machine.Stage.TheVariants.{SendRead, SendCell, SendWrite, SendMask, SendLook, TakeWrite, TakeFirst, TakeCell};
ghost use Rattle.ring_machine.specs.declared.machine.Stage.TheVariants.{CommitRead, CommitFeature, CommitPending, CommitWrite};
ghost use Rattle.ring_machine.specs.declared.machine.Stage.TheVariants.{ArmMask, ArmWrite, ArmRead, ArmMark, ArmUndoMask, ArmUndoPending};
ghost use Rattle.ring_machine.specs.declared.machine.Stage.TheVariants.{PollSignal, PollMask, PollPending, MarkRaise, PeerMark};

use crate::machine::{EndMachine, Ending, Stage};
use crate::ring::{
    free_in, low_half, named_cell, names_cell, packet_len, payload_offset, raise_with, step_ahead,
    used_in,
};

// The call ended so.
#[inline(always)]
fn end(m: &mut EndMachine, how: Ending)
    ensures { m.exit.now ≡ ends m.entry.now how }
{
    m.stage = Stage::Idle;
    m.ended = how;
    m.done = 0;
}

// The end refuses the value that it loaded, and makes no step any more.
#[inline(always)]
fn stop(m: &mut EndMachine, how: Ending, value: u32)
    ensures { m.exit.now ≡ breaks m.entry.now how value }
{
    m.stage = Stage::Stopped;
    m.ended = how;
    m.value = value;
    m.done = 0;
}

// The read index must be in form and leave more room than the packet and its trailer need.
#[inline(always)]
fn fed_send_read(m: &mut EndMachine, v: u64)
    requires { IsSound m.now }
    ensures { m.exit.now ≡ fed_at SendRead m.entry.now v }
{
    if !names_cell(m.cells, v) {
        return stop(m, Ending::BadPeer, low_half(v));
    }
    let seen = named_cell(v);
    let room = free_in(m.cells, seen, m.write);
    m.seen = seen;
    if room <= m.len + 1 {
        m.room = room;
        m.words = m.len;
        return end(m, Ending::Full);
    }
    m.stage = Stage::SendCell;
    m.done = 0;
}

// After the packet's cells comes its trailer, and then the store of write.
#[inline(always)]
fn fed_send_cell(m: &mut EndMachine, _v: u64)
    requires { IsSound m.now }
    ensures { m.exit.now ≡ fed_at SendCell m.entry.now _v }
{
    if m.done < m.len {
        m.done += 1;
    } else {
        m.stage = Stage::SendWrite;
    }
}

// The packet is sent: the private write index goes on past its trailer.
#[inline(always)]
fn fed_send_write(m: &mut EndMachine, _v: u64)
    requires { IsSound m.now }
    ensures { m.exit.now ≡ fed_at SendWrite m.entry.now _v }
{
    m.stage = Stage::SendMask;
    m.old = m.write;
    m.write = step_ahead(m.cells, m.write, m.len + 1);
}

// A peer whose mask isn't 0 asks for no signal.
#[inline(always)]
fn fed_send_mask(m: &mut EndMachine, v: u64)
    ensures { m.exit.now ≡ fed_at SendMask m.entry.now v }
{
    if low_half(v) == 0 {
        m.stage = Stage::SendLook;
    } else {
        end(m, Ending::SentQuiet);
    }
}

// The peer is signalled only where it had read all that was sent before, so that its read index is the old write index.
#[inline(always)]
fn fed_send_look(m: &mut EndMachine, v: u64)
    requires { IsSound m.now }
    ensures { m.exit.now ≡ fed_at SendLook m.entry.now v }
{
    if low_half(v) == 8 * m.old {
        m.stage = Stage::SendRaise;
    } else {
        end(m, Ending::SentQuiet);
    }
}

// The write index must be in form. Where it is the private read index there is no packet.
#[inline(always)]
fn fed_take_write(m: &mut EndMachine, v: u64)
    ensures { m.exit.now ≡ fed_at TakeWrite m.entry.now v }
{
    if !names_cell(m.cells, v) {
        return stop(m, Ending::BadIndex, low_half(v));
    }
    let seen = named_cell(v);
    if seen == m.read {
        m.drained = m.drained || m.peer_marked;
        return end(m, Ending::Empty);
    }
    m.stage = Stage::TakeFirst;
    m.seen = seen;
    m.done = 0;
}

// The bits 16 to 47 of a packet's first word: its offset and its length.
#[inline(always)]
fn form_of(v: u64) -> u32
    ensures { result ≡ v / 65536 % 4294967296 }
{
    (v / 65536 % 4294967296) as u32
}

// The length must be at least 2 words, and with its trailer inside what the write index showed. The offset lies inside the packet.
#[inline(always)]
fn fed_take_first(m: &mut EndMachine, v: u64)
    requires { IsSound m.now }
    ensures { m.exit.now ≡ fed_at TakeFirst m.entry.now v }
{
    let len = packet_len(v);
    let offset = payload_offset(v);
    if len < 2 || len >= used_in(m.cells, m.read, m.seen) {
        return stop(m, Ending::BadLength, form_of(v));
    }
    if offset < 2 || offset > len {
        return stop(m, Ending::BadOffset, form_of(v));
    }
    m.stage = Stage::TakeCell;
    m.len = len;
    m.done = 1;
}

// Each cell of the packet once; after the last one the private read index goes on past the trailer.
#[inline(always)]
fn fed_take_cell(m: &mut EndMachine, _v: u64)
    requires { IsSound m.now }
    ensures { m.exit.now ≡ fed_at TakeCell m.entry.now _v }
{
    if m.done + 1 < m.len {
        m.done += 1;
        return;
    }
    m.read = step_ahead(m.cells, m.read, m.len + 1);
    m.words = m.len;
    end(m, Ending::Took);
}

// The cells are given back. The index that was committed before is kept for the test of room.
#[inline(always)]
fn fed_commit_read(m: &mut EndMachine, _v: u64)
    ensures { m.exit.now ≡ fed_at CommitRead m.entry.now _v }
{
    m.stage = Stage::CommitFeature;
    m.old = m.start;
    m.start = m.read;
}

// A producer that doesn't set bit 0 of feature never waits for room.
#[inline(always)]
fn fed_commit_feature(m: &mut EndMachine, v: u64)
    ensures { m.exit.now ≡ fed_at CommitFeature m.entry.now v }
{
    if low_half(v) % 2 == 1 {
        m.stage = Stage::CommitPending;
    } else {
        end(m, Ending::CommittedQuiet);
    }
}

// A producer that waits for no room stores pending 0.
#[inline(always)]
fn fed_commit_pending(m: &mut EndMachine, v: u64)
    ensures { m.exit.now ≡ fed_at CommitPending m.entry.now v }
{
    let pending = low_half(v);
    if pending == 0 {
        return end(m, Ending::CommittedQuiet);
    }
    m.stage = Stage::CommitWrite;
    m.value = pending;
}

// The signal is owed where this commit made the room that the producer waits for. A write index in no form owes none.
#[inline(always)]
fn commit_raises(m: &EndMachine, v: u64) -> bool
    requires { IsSound m.now }
    ensures { result ≡ makes_room m.now v }
{
    names_cell(m.cells, v) && raise_with(8 * m.cells, low_half(v), 8 * m.old, 8 * m.read, m.value)
}

// The last look of a commit: it raises the producer, or ends.
#[inline(always)]
fn fed_commit_write(m: &mut EndMachine, v: u64)
    requires { IsSound m.now }
    ensures { m.exit.now ≡ fed_at CommitWrite m.entry.now v }
{
    if commit_raises(m, v) {
        m.stage = Stage::CommitRaise;
    } else {
        end(m, Ending::CommittedQuiet);
    }
}

// From here on the peer's sends signal.
#[inline(always)]
fn fed_arm_mask(m: &mut EndMachine)
    ensures { m.exit.now ≡ fed_at ArmMask m.entry.now 0 }
{
    m.stage = Stage::ArmWrite;
    m.masked = false;
}

// A write index that isn't the private read index means packets. Room is looked at only where it is wanted.
#[inline(always)]
fn fed_arm_write(m: &mut EndMachine, v: u64)
    requires { IsSound m.now }
    ensures { m.exit.now ≡ fed_at ArmWrite m.entry.now v }
{
    if low_half(v) != 8 * m.read {
        m.stage = Stage::ArmUndoMask;
        return;
    }
    m.stage = if m.want == 0 {
        Stage::ArmMark
    } else {
        Stage::ArmRead
    };
}

// A read index in no form counts as room: the next send decides on it.
#[inline(always)]
fn has_room(m: &EndMachine, v: u64) -> bool
    requires { IsSound m.now }
    ensures { result ≡ finds_room m.now v }
{
    !names_cell(m.cells, v) || m.want < 8 * free_in(m.cells, named_cell(v), m.write)
}

// More room than is wanted means work.
#[inline(always)]
fn fed_arm_read(m: &mut EndMachine, v: u64)
    requires { IsSound m.now }
    ensures { m.exit.now ≡ fed_at ArmRead m.entry.now v }
{
    m.stage = if has_room(m, v) {
        Stage::ArmUndoMask
    } else {
        Stage::ArmMark
    };
}

// The last look: the peer's mark means work, and nothing found means sleep.
#[inline(always)]
fn fed_arm_mark(m: &mut EndMachine, v: u64)
    ensures { m.exit.now ≡ fed_at ArmMark m.entry.now v }
{
    if v == 0 {
        m.asleep = true;
        return end(m, Ending::FellAsleep);
    }
    m.stage = Stage::ArmUndoMask;
    m.peer_marked = true;
    m.saw = true;
}

// Work was found: mask is 1 again, and pending is put back where it was stored.
#[inline(always)]
fn fed_arm_undo_mask(m: &mut EndMachine)
    ensures { m.exit.now ≡ fed_at ArmUndoMask m.entry.now 0 }
{
    m.masked = true;
    if m.want == 0 {
        return end(m, Ending::FoundWork);
    }
    m.stage = Stage::ArmUndoPending;
}

// The call ended so, and no room is wanted any more.
#[inline(always)]
fn end_unwanted(m: &mut EndMachine, how: Ending)
    ensures { m.exit.now ≡ record (ends m.entry.now how) { want = 0 } }
{
    m.want = 0;
    end(m, how);
}

// A signal that was down leaves the end asleep. One that was up wakes it.
#[inline(always)]
fn fed_poll_signal(m: &mut EndMachine, v: u64)
    ensures { m.exit.now ≡ fed_at PollSignal m.entry.now v }
{
    if v == 0 {
        return end(m, Ending::NoSignal);
    }
    m.stage = Stage::PollMask;
    m.asleep = false;
}

// Mask is 1 again, and pending is put back where it was stored.
#[inline(always)]
fn fed_poll_mask(m: &mut EndMachine)
    ensures { m.exit.now ≡ fed_at PollMask m.entry.now 0 }
{
    m.masked = true;
    if m.want == 0 {
        return end(m, Ending::Woke);
    }
    m.stage = Stage::PollPending;
}

// The end sends nothing more.
#[inline(always)]
fn fed_mark_raise(m: &mut EndMachine)
    ensures { m.exit.now ≡ fed_at MarkRaise m.entry.now 0 }
{
    m.marked = true;
    end(m, Ending::Marked);
}

// A mark that was seen is remembered.
#[inline(always)]
fn fed_peer_mark(m: &mut EndMachine, v: u64)
    ensures { m.exit.now ≡ fed_at PeerMark m.entry.now v }
{
    if v == 0 {
        return end(m, Ending::PeerMarkDown);
    }
    m.peer_marked = true;
    end(m, Ending::PeerMarkUp);
}

// The machine at any stage: it stands apart and takes a copy, so that the frequent stages are small, and the driver's copy stays in registers.
#[inline(never)]
fn fed_rest(mut m: EndMachine, v: u64) -> EndMachine
    requires { IsSound m }
    ensures { result ≡ fed m v }
{
    match m.stage {
        Stage::Idle => {}
        Stage::Stopped => {}
        Stage::SendRead => fed_send_read(&mut m, v),
        Stage::SendCell => fed_send_cell(&mut m, v),
        Stage::SendWrite => fed_send_write(&mut m, v),
        Stage::SendMask => fed_send_mask(&mut m, v),
        Stage::SendLook => fed_send_look(&mut m, v),
        Stage::SendRaise => end(&mut m, Ending::SentRaised),
        Stage::TakeWrite => fed_take_write(&mut m, v),
        Stage::TakeFirst => fed_take_first(&mut m, v),
        Stage::TakeCell => fed_take_cell(&mut m, v),
        Stage::CommitRead => fed_commit_read(&mut m, v),
        Stage::CommitFeature => fed_commit_feature(&mut m, v),
        Stage::CommitPending => fed_commit_pending(&mut m, v),
        Stage::CommitWrite => fed_commit_write(&mut m, v),
        Stage::CommitRaise => end(&mut m, Ending::CommittedRaised),
        Stage::ArmPending => m.stage = Stage::ArmMask,
        Stage::ArmMask => fed_arm_mask(&mut m),
        Stage::ArmWrite => fed_arm_write(&mut m, v),
        Stage::ArmRead => fed_arm_read(&mut m, v),
        Stage::ArmMark => fed_arm_mark(&mut m, v),
        Stage::ArmUndoMask => fed_arm_undo_mask(&mut m),
        Stage::ArmUndoPending => end_unwanted(&mut m, Ending::FoundWork),
        Stage::PollSignal => fed_poll_signal(&mut m, v),
        Stage::PollMask => fed_poll_mask(&mut m),
        Stage::PollPending => end_unwanted(&mut m, Ending::Woke),
        Stage::MarkStore => m.stage = Stage::MarkRaise,
        Stage::MarkRaise => fed_mark_raise(&mut m),
        Stage::PeerMark => fed_peer_mark(&mut m, v),
    }
    m
}

/// Makes the machine what it is once its step has answered `v`: only the fields that change are written. The stages that a driver has loops for come
/// first, inlined into those.
#[inline(always)]
pub(crate) fn feed_machine(m: &mut EndMachine, v: u64)
    requires { IsSound m.now }
    ensures { m.exit.now ≡ fed m.entry.now v }
{
    match m.stage {
        Stage::SendRead => fed_send_read(m, v),
        Stage::SendCell => fed_send_cell(m, v),
        Stage::SendWrite => fed_send_write(m, v),
        Stage::SendMask => fed_send_mask(m, v),
        Stage::TakeWrite => fed_take_write(m, v),
        Stage::TakeFirst => fed_take_first(m, v),
        Stage::TakeCell => fed_take_cell(m, v),
        Stage::CommitRead => fed_commit_read(m, v),
        Stage::CommitFeature => fed_commit_feature(m, v),
        Stage::CommitPending => fed_commit_pending(m, v),
        Stage::ArmPending => m.stage = Stage::ArmMask,
        Stage::ArmMask => fed_arm_mask(m),
        Stage::ArmWrite => fed_arm_write(m, v),
        Stage::ArmRead => fed_arm_read(m, v),
        Stage::ArmMark => fed_arm_mark(m, v),
        Stage::PollSignal => fed_poll_signal(m, v),
        Stage::PollMask => fed_poll_mask(m),
        Stage::SendLook => fed_send_look(m, v),
        Stage::SendRaise => end(m, Ending::SentRaised),
        _ => *m = fed_rest(*m, v),
    }
}
