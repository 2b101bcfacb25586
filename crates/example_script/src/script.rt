//! A script in memory is run, and its report stands in memory.
ghost use Rattle.std.specs.Prelude.{◌≡◌, ◌≢◌, [], Some, IfOk, MatchOption};
ghost use Rattle.vmbus_main.specs.Call.{IsRefused, IsWritten};
ghost use Rattle.vmbus_main.specs.declared.command.Command.TheVariants.{Input};
ghost use Rattle.vmbus_main.specs.declared.command.InputCommand.TheVariants.{Run};

use io_edge::{NoGate, SureSink, SureSource};
use std::alloc::{AllocError, Global};
use std::sync::Wait;
use std::thread::Threads;
use vmbus_main::{Outcome, vmbus};

/// What a script comes to, and its report. With status 0 the report is whole: that of a run of the bus by this script. Otherwise it is empty: with status 2
/// the fault is the script's first wrong line, and with 5 memory was short.
pub fn report_of<R: Threads + Wait + Sync>(
    rt: &R,
    alloc: Global,
    script: Vec<u8>,
) -> Result<(Outcome, SureSink), AllocError>
    ensures written { IfOk result (λ r. r.0.status ≡ 0 → IsWritten (Some (Input Run)) (Some script.items) (Some []) (Some r.1.written) r.0.controls r.0.settled.items r.0.histories.items) }
    ensures refused { IfOk result (λ r. MatchOption r.0.fault (r.0.status ≢ 2) (λ fault. (r.0.status ≡ 2) × IsRefused (Some (Input Run)) (Some script.items) fault)) }
    ensures nothing { IfOk result (λ r. r.0.status ≢ 0 → r.1.written ≡ []) }
{
    let words = [b"run".to_vec(alloc)?];
    let mut sink = SureSink::make(alloc, 67_108_864)?;
    let mut source = SureSource::make(script);
    let outcome = vmbus(rt, alloc, &words, &mut source, &mut sink, &NoGate);
    Ok((outcome, sink))
}
