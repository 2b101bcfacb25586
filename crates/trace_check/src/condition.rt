//! When a call may begin.
ghost use Rattle.std.specs.Prelude.{◌≡◌, ◌<◌, ◌+◌, IsTrue, false, length};
ghost use Rattle.ring_machine.specs.declared.machine.Stage.TheVariants.{Idle};
ghost use Rattle.ring_machine.specs.declared.state.EndState.{EndState};
ghost use Rattle.ring_machine.specs.States.{IsPacket};
ghost use Rattle.ring_machine.specs.Endings.{IsWant};
ghost use Rattle.trace_model.specs.Traces.{MayCall};

use ring_core::{EndMachine, Stage, is_packet};
use trace_model::TraceCall;

fn is_idle(m: &EndMachine) -> bool
    ensures idle { IsTrue result → m.now.stage ≡ Idle }
    ensures whole { m.now.stage ≡ Idle → IsTrue result }
{
    match m.stage {
        Stage::Idle => true,
        _ => false,
    }
}

fn is_awake(m: &EndMachine) -> bool
    ensures awake { IsTrue result → (m.now.stage ≡ Idle) × (m.now.asleep ≡ false) × (m.now.marked ≡ false) }
    ensures whole { m.now.stage ≡ Idle → m.now.asleep ≡ false → m.now.marked ≡ false → IsTrue result }
{
    is_idle(m) && !m.asleep && !m.marked
}

// Whether these words are a packet that fits into a ring of so many cells.
fn fits(cells: u32, packet: &[u64]) -> bool
    ensures fits { IsTrue result → IsPacket packet.now × (length packet.now + 1 < cells) }
    ensures whole { IsPacket packet.now → length packet.now + 1 < cells → IsTrue result }
{
    is_packet(packet) && packet.len() as u64 + 1 < u64::from(cells)
}

// Whether an end of such a ring may wait for this room.
fn is_want(cells: u32, want: Option<u64>) -> bool
    ensures want { IsTrue result → IsWant cells want }
    ensures whole { IsWant cells want → IsTrue result }
{
    match want {
        Some(want) => 24 <= want && want < 8 * u64::from(cells),
        None => true,
    }
}

/// Whether an end with this machine may begin the call.
pub(crate) fn may_call(m: &EndMachine, call: &TraceCall) -> bool
    ensures may { (e : EndState) → e.machine ≡ m.now → IsTrue result → MayCall call.now e }
    ensures whole { (e : EndState) → e.machine ≡ m.now → MayCall call.now e → IsTrue result }
{
    match call {
        TraceCall::Send(packet) => is_awake(m) && fits(m.cells, packet.as_slice()),
        TraceCall::Arm(want) => is_awake(m) && m.start == m.read && is_want(m.cells, *want),
        TraceCall::Poll => is_idle(m) && m.asleep,
        TraceCall::Take | TraceCall::Commit | TraceCall::Mark | TraceCall::PeerMark => is_awake(m),
    }
}
