//! An input is read line by line.
ghost use Rattle.std.specs.Prelude.{◌≡◌, ◌≤◌, ◌<◌, ◌+◌, ◌*◌, ◌++◌, ◌∷◌, [], ℕ, List, None, false, IfOk, IfErr, OnOk};
ghost use Rattle.ring_machine.specs.Places.{IsRingSize};
ghost use Rattle.trace_lines.specs.Traces.{Trace, no_trace, fault_at, with_line, size_of};
ghost use Rattle.trace_lines.specs.Ranges.{IsPages};
ghost use Rattle.trace_lines.specs.Faults.{data_of};
ghost use Rattle.trace_model.specs.Traces.{TraceLine, IsVerdict};
ghost use Rattle.trace_check.specs.Following.{Follows};
ghost use Rattle.trace_check.specs.Reading.{Keeps, IsWrongAt, made_in};

use crate::reading::Reading;
use crate::watch::Watch;
use script_text::ParseFault;
use std::alloc::{AllocError, Global};
use trace_lines::{Said, read_line};
use trace_model::{TraceWhat, Verdict};

// The bytes of data of a ring of so many pages.
fn ring_size(ring: Option<u32>) -> u32
    requires { IsPages ring }
    ensures size { result ≡ data_of ring }
    ensures ring { IsRingSize result }
{
    4096 * ring.unwrap_or(1)
}

impl Reading {
    /// What no line comes to.
    pub(crate) fn new(alloc: Global) -> Result<Reading, AllocError>
        ensures { IfOk result (λ r. Keeps no_trace r × (made_in r ≡ 0)) }
    {
        Ok(Reading {
            watch: Watch::open(alloc, 4096)?,
            ring: None,
            first: true,
        })
    }

    // A line said how many pages each ring has.
    fn ring(&mut self, alloc: Global, pages: Option<u32>) -> Result<(), AllocError>
        requires { IsPages pages }
        ensures ring { OnOk result (self.new.ring ≡ pages) }
        ensures first { OnOk result (self.new.first ≡ false) }
        ensures watch { OnOk result (Follows (data_of pages) [] self.new.watch × (made_in self.new ≡ 0)) }
    {
        self.watch = Watch::open(alloc, ring_size(pages))?;
        self.ring = pages;
        self.first = false;
        Ok(())
    }

    // A line said a call or a step.
    fn says(&mut self, number: u32, what: TraceWhat)
        requires { made_in self.old < 4294967295 }
        ensures ring { self.new.ring ≡ self.old.ring }
        ensures first { self.new.first ≡ false }
        ensures line { (d : ℕ) (lines : List TraceLine) → Follows d lines self.old.watch → Follows d (lines ++ record { number = number; what = what } ∷ []) self.new.watch }
        ensures steps { made_in self.new ≤ made_in self.old + 1 }
    {
        self.watch.follow(number, what);
        self.first = false;
    }

    /// Goes on by a line, or finds what stands against it.
    pub(crate) fn line(&mut self, alloc: Global, number: u32, line: &[u8]) -> Result<(), ParseFault>
        requires pages { IsPages self.old.ring }
        requires few { made_in self.old < 4294967295 }
        ensures ok { OnOk result ((t : Trace) → Keeps t self.old → (fault_at number t line.now ≡ None) × Keeps (with_line number t line.now) self.new) }
        ensures within { OnOk result (number ≤ 20000) }
        ensures pages { OnOk result (IsPages self.new.ring) }
        ensures steps { OnOk result (made_in self.new ≤ made_in self.old + 1) }
        ensures err { IfErr result (λ fault. (t : Trace) → Keeps t self.old → IsWrongAt number t line.now fault) }
    {
        match read_line(alloc, number, self.ring, self.first, line)? {
            Said::Nothing => Ok(()),
            Said::Ring(pages) => {
                self.ring(alloc, pages)?;
                Ok(())
            }
            Said::Says(what) => match what {
                Some(what) => {
                    self.says(number, what);
                    Ok(())
                }
                None => Ok(()),
            },
        }
    }

    /// The verdict on the lines so far.
    pub(crate) fn verdict(&self) -> Verdict
        requires { made_in self.now < 4294967295 }
        ensures { (t : Trace) → Keeps t self.now → IsVerdict (size_of t) t.lines result }
    {
        self.watch.verdict()
    }
}
