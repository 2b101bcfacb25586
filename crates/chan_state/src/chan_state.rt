//! A channel's state at one side.
ghost use Rattle.std.specs.Prelude.{◌≡◌, IfOk, IfErr, Some, None};
ghost use Rattle.chan_state.specs.Life.{transition, vp_after};

use crate::table::row;
use crate::{Action, Event, State, StateFault};
use io_edge::Side;

/// Where a channel stands at one side. No call takes memory.
#[derive(Clone, Copy, Debug, PartialEq, Eq)]
pub struct ChanState {
    side: Side,
    state: State,
    vp: u32,
}

impl ChanState {
    /// A channel that was offered. Its interrupts go to processor 0.
    pub fn make(side: Side) -> ChanState
        ensures { result ≡ record { side = side; state = State.Offered; vp = 0 } }
    {
        ChanState {
            side,
            state: State::Offered,
            vp: 0,
        }
    }

    /// Goes on by one event, and says what is to be done about it.
    ///
    /// It refuses exactly where the table of a channel's life has no row, and then nothing is
    /// changed.
    pub fn event(&mut self, e: Event) -> Result<Action, StateFault>
        ensures taken { IfOk result (λ action. (transition self.old.side self.old.state e ≡ Some (self.new.state, action)) × (self.new.side ≡ self.old.side) × (self.new.vp ≡ vp_after self.old.vp e)) }
        ensures refused { IfErr result (λ fault. (transition self.old.side self.old.state e ≡ None) × (self.new ≡ self.old) × (fault ≡ record { state = self.old.state; event = e })) }
    {
        match row(self.side, self.state, e) {
            Some((after, action)) => {
                self.state = after;
                self.vp = moved(self.vp, e);
                Ok(action)
            }
            None => Err(StateFault {
                state: self.state,
                event: e,
            }),
        }
    }

    /// Where it stands.
    pub fn state(&self) -> State
        ensures { result ≡ self.now.state }
    {
        self.state
    }

    /// The virtual processor of its interrupts: that of the last event taken that names one, and 0
    /// before any did.
    pub fn vp(&self) -> u32
        ensures { result ≡ self.now.vp }
    {
        self.vp
    }
}

// The processor of a channel's interrupts once an event was taken.
fn moved(vp: u32, event: Event) -> u32
    ensures { result ≡ vp_after vp event }
{
    match event {
        Event::WantModify { vp: to, .. } | Event::ModifySeen { vp: to, .. } => to,
        _ => vp,
    }
}
