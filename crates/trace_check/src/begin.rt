//! An end of a trace is made, and begins calls.
ghost use Rattle.std.specs.Prelude.{◌≡◌, ◌≤◌, ◌/◌, ℕ, [], MatchOption};
ghost use Rattle.ring_machine.specs.declared.state.EndState.{EndState};
ghost use Rattle.ring_machine.specs.Places.{IsRingSize};
ghost use Rattle.ring_machine.specs.Steps.{machine_new};
ghost use Rattle.ring_machine.specs.States.{entered};
ghost use Rattle.trace_model.specs.Traces.{MayCall, begun_by, packet_by};
ghost use Rattle.trace_check.specs.Watching.{IsEnd, CallRefused, IsSmall, bare_end};

use crate::condition::may_call;
use crate::watched::Watched;
use ring_core::{EndCore, Side};
use std::alloc::Global;
use trace_model::{TraceCall, Words, WrongWhy};

impl Watched {
    /// A new end of a channel whose rings have `d` bytes of data.
    pub(crate) fn make(alloc: Global, side: Side, d: u32) -> Watched
        requires { IsRingSize d }
        ensures machine { result.core.machine ≡ machine_new side (d / 8) }
        ensures packet { result.packet ≡ [] }
        ensures counts { (result.steps ≡ 0) × (result.sent ≡ 0) × (result.got ≡ 0) }
    {
        Watched {
            core: EndCore::make(side, d, 0),
            packet: Words::of(Vec::new(alloc)),
            steps: 0,
            sent: 0,
            got: 0,
        }
    }

    // Begins a send of a packet that fits.
    fn begin_send(&mut self, packet: Words)
        requires { MayCall (TraceCall.Send packet) (bare_end self.old.core.machine) }
        ensures machine { self.new.core.machine ≡ begun_by (TraceCall.Send packet) self.old.core.machine }
        ensures packet { self.new.packet ≡ packet }
        ensures counts { (self.new.steps ≡ self.old.steps) × (self.new.sent ≡ self.old.sent) × (self.new.got ≡ self.old.got) }
    {
        self.core.begin_send(packet.as_slice().len() as u32);
        self.packet = packet;
    }

    // Begins to arm the signal of an end that has committed all that it took.
    fn begin_arm(&mut self, want: Option<u64>)
        requires { MayCall (TraceCall.Arm want) (bare_end self.old.core.machine) }
        ensures machine { self.new.core.machine ≡ begun_by (TraceCall.Arm want) self.old.core.machine }
        ensures packet { self.new.packet ≡ self.old.packet }
        ensures counts { (self.new.steps ≡ self.old.steps) × (self.new.sent ≡ self.old.sent) × (self.new.got ≡ self.old.got) }
    {
        self.core.begin_arm(narrow(want));
    }

    // Begins a call whose condition holds, from where no packet is under way.
    fn begin(&mut self, call: TraceCall)
        requires may { MayCall call (bare_end self.old.core.machine) }
        requires packet { self.old.packet ≡ [] }
        ensures machine { self.new.core.machine ≡ begun_by call self.old.core.machine }
        ensures packet { self.new.packet ≡ packet_by call }
        ensures counts { (self.new.steps ≡ self.old.steps) × (self.new.sent ≡ self.old.sent) × (self.new.got ≡ self.old.got) }
    {
        match call {
            TraceCall::Send(packet) => self.begin_send(packet),
            TraceCall::Arm(want) => self.begin_arm(want),
            TraceCall::Poll => self.core.begin_poll(),
            TraceCall::Take => self.core.begin_take(),
            TraceCall::Commit => self.core.begin_commit(),
            TraceCall::Mark => self.core.begin_mark(),
            TraceCall::PeerMark => self.core.begin_peer_mark(),
        }
    }

    /// Begins a call, or says why it can't come here: one is under way, or its condition doesn't hold.
    pub(crate) fn call(&mut self, call: TraceCall) -> Option<WrongWhy>
        ensures leads { (e : EndState) → IsEnd self.old e → MatchOption result
            (MayCall call e × IsEnd self.new (entered e (begun_by call e.machine) (packet_by call)))
            (λ why. CallRefused why call e × IsEnd self.new e) }
        ensures cells { self.new.core.machine.cells ≡ self.old.core.machine.cells }
        ensures steps { self.new.steps ≡ self.old.steps }
    {
        if self.core.is_busy() {
            return Some(WrongWhy::Busy);
        }
        if !may_call(&self.core.machine, &call) {
            return Some(WrongWhy::Condition);
        }
        self.packet.clear();
        self.begin(call);
        None
    }
}

// A want that fits into a ring has 32 bits.
fn narrow(want: Option<u64>) -> Option<u32>
    requires { IsSmall want }
    ensures { result ≡ want }
{
    match want {
        Some(want) => Some(want as u32),
        None => None,
    }
}
