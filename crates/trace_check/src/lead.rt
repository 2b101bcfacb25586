//! A channel of a trace goes on by its lines.
ghost use Rattle.std.specs.Prelude.{◌≡◌, ◌<◌, ◌≤◌, ◌+◌, MatchOption, IfOk};
ghost use Rattle.ring_machine.specs.Places.{IsRingSize};
ghost use Rattle.trace_model.specs.Traces.{Moment, LineLeads, IsWrong, opened_at};
ghost use Rattle.trace_check.specs.Watching.{Stands, steps_of, steps_in};

use crate::checker::Checker;
use crate::stepping::step;
use crate::watched::Watched;
use ring_core::{Side, SoloMem};
use std::alloc::{AllocError, Global};
use trace_model::{TraceWhat, WrongWhy};

impl Checker {
    /// A new channel whose rings have `d` bytes of data.
    pub(crate) fn open(alloc: Global, d: u32) -> Result<Checker, AllocError>
        requires { IsRingSize d }
        ensures { IfOk result (λ c. Stands c (opened_at d) × (steps_of c ≡ 0)) }
    {
        Ok(Checker {
            mem: SoloMem::make(alloc, d, 0)?,
            guest: Watched::make(alloc, Side::Guest, d),
            host: Watched::make(alloc, Side::Host, d),
        })
    }

    /// Goes on by a line, where it goes on from here; or says why not, and stays.
    pub(crate) fn lead(&mut self, what: TraceWhat) -> Option<WrongWhy>
        requires { steps_of self.old < 4294967295 }
        ensures leads { (m : Moment) → Stands self.old m → MatchOption result
            ((n : Moment) × LineLeads what m n × Stands self.new n)
            (λ why. IsWrong why what m × Stands self.new m) }
        ensures steps { MatchOption result (steps_of self.new ≡ steps_of self.old + steps_in what) (λ why. steps_of self.new ≡ steps_of self.old) }
    {
        match what {
            TraceWhat::Call(side, call) => match side {
                Side::Guest => self.guest.call(call),
                Side::Host => self.host.call(call),
            },
            TraceWhat::Step(side, op, v) => match side {
                Side::Guest => step(&mut self.mem, &mut self.guest, op, v),
                Side::Host => step(&mut self.mem, &mut self.host, op, v),
            },
        }
    }
}
