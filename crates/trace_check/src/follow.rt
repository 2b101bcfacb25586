//! A trace is followed line by line.
ghost use Rattle.std.specs.Prelude.{◌≡◌, ◌<◌, ◌≤◌, ◌+◌, ◌++◌, ◌∷◌, [], ℕ, List, IfOk};
ghost use Rattle.ring_machine.specs.Places.{IsRingSize};
ghost use Rattle.trace_model.specs.Traces.{TraceLine, IsVerdict};
ghost use Rattle.trace_check.specs.Following.{Follows, done_in, found_at};

use crate::checker::Checker;
use crate::watch::{Found, Watch};
use std::alloc::{AllocError, Global};
use trace_model::{TraceWhat, Verdict, WrongWhy};

// The line that is wrong, where there is a reason against it.
fn found_at(line: u32, why: Option<WrongWhy>) -> Option<Found>
    ensures { result ≡ found_at line why }
{
    match why {
        Some(why) => Some(Found { line, why }),
        None => None,
    }
}

impl Watch {
    /// A new channel whose rings have `d` bytes of data.
    pub(crate) fn open(alloc: Global, d: u32) -> Result<Watch, AllocError>
        requires { IsRingSize d }
        ensures { IfOk result (λ w. Follows d [] w × (done_in w ≡ 0)) }
    {
        Ok(Watch {
            checker: Checker::open(alloc, d)?,
            wrong: None,
        })
    }

    /// Goes on by a line.
    pub(crate) fn follow(&mut self, number: u32, what: TraceWhat)
        requires { done_in self.old < 4294967295 }
        ensures line { (d : ℕ) (lines : List TraceLine) → Follows d lines self.old → Follows d (lines ++ record { number = number; what = what } ∷ []) self.new }
        ensures steps { done_in self.new ≤ done_in self.old + 1 }
    {
        if self.wrong.is_some() {
            return;
        }
        let why = self.checker.lead(what);
        self.wrong = found_at(number, why);
    }

    /// The verdict on the lines so far.
    pub(crate) fn verdict(&self) -> Verdict
        requires { done_in self.now < 4294967295 }
        ensures { (d : ℕ) (lines : List TraceLine) → Follows d lines self.now → IsVerdict d lines result }
    {
        match self.wrong {
            Some(found) => Verdict::Wrong {
                line: found.line,
                why: found.why,
            },
            None => Verdict::Run {
                steps: self.checker.guest.steps + self.checker.host.steps,
                guest_sent: self.checker.guest.sent,
                guest_got: self.checker.guest.got,
                host_sent: self.checker.host.sent,
                host_got: self.checker.host.got,
            },
        }
    }
}
