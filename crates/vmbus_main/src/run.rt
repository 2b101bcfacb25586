//! The run of a script: its control path around its phases.
ghost use Rattle.std.specs.Prelude.{◌≡◌, ◌+◌, ◌<◌, true, false, length, count_by, IfOk, OnOk};
ghost use Rattle.bus_model.specs.Run.{IsBusRun};
ghost use Rattle.script_lines.specs.Parts.{parts};
ghost use Rattle.script_phases.specs.Openings.{phases};
ghost use Rattle.bus_script.specs.Report.{prints};
ghost use Rattle.bus_run.specs.Opened.{AllRanAsSet};
ghost use Rattle.bus_run.specs.Whole.{RunsSoFar};
ghost use Rattle.vmbus_main.specs.Between.{IsBetween};
ghost use Rattle.control_model.specs.Guest.{new_guest};
ghost use Rattle.control_model.specs.Openings.{plan_of};
ghost use Rattle.control_path.specs.Path.{Rests, RanPart};
ghost use Rattle.control_path.specs.declared.path.ControlPath.{ControlPath as OnePath};
ghost use Rattle.contact.specs.declared.part.Part.TheVariants.{Unload};
ghost use Rattle.vmbus_main.specs.Controls.{AreControls};
ghost use Rattle.vmbus_main.specs.Round.{StoodRound};

use crate::outcome::Controls;
use bus_run::{Runner, ScriptRun};
use bus_script::Script;
use contact::Part;
use control_path::ControlPath;
use io_edge::Gate;
use mail_box::ClosedQueue;
use std::alloc::{AllocError, Global};
use std::sync::Wait;
use std::thread::Threads;

/// What a run of a script gives: both controls, what passed through the queues between them, and what ran between their parts.
#[derive(Drop)]
pub struct BusRan {
    pub controls: Controls,
    pub to_host: ClosedQueue,
    pub to_guest: ClosedQueue,
    pub run: ScriptRun,
}

/// Runs a script: version and offers, each phase with its channels opened before it and closed behind it, and the farewell. The queues that were ended with the
/// farewell are those of the control path whose parts stood round the phases that ran (`StoodRound`). The channels of each phase were opened with the ring pages and
/// the windows that the script sets, and what was carried is what their workers left (`AllRanAsSet`).
pub fn run_script<R: Threads + Wait + Sync, G: Gate>(
    rt: &R,
    gate: &G,
    alloc: Global,
    script: &Script,
) -> Result<BusRan, AllocError>
    ensures controls { IfOk result (λ ran. AreControls script.now ran.controls) }
    ensures run { IfOk result (λ ran. IsBusRun script.now ran.run.settled.items ran.run.histories.items ran.run.results.items) }
    ensures each { IfOk result (λ ran. length ran.run.results.items ≡ count_by prints script.now) }
    ensures work { IfOk result (λ ran. AllRanAsSet script.now (phases script.now) ran.run.work.items ran.run.settled.items) }
    ensures round { IfOk result (λ ran. StoodRound ran) }
{
    let path = ControlPath::make(alloc, script)?;
    let Ok(mut runner) = Runner::make(alloc, script, &path) else {
        drop(path);
        return Err(AllocError);
    };
    let Ok(path) = run_parts(rt, gate, alloc, script, path, &mut runner) else {
        drop(runner);
        return Err(AllocError);
    };
    let Ok(run) = runner.end(alloc) else {
        drop(path);
        return Err(AllocError);
    };
    let over = path.end(rt);
    Ok(BusRan {
        controls: Controls {
            guest: over.guest,
            host: over.host,
        },
        to_host: over.to_host,
        to_guest: over.to_guest,
        run,
    })
}

/// Runs all parts of a script's control path, and its phases between them.
fn run_parts<R: Threads + Wait + Sync, G: Gate>(
    rt: &R,
    gate: &G,
    alloc: Global,
    script: &Script,
    path: ControlPath,
    runner: &mut Runner,
) -> Result<ControlPath, AllocError>
    requires so_far { RunsSoFar script.now runner.old }
    requires none { runner.old.phase ≡ 0 }
    requires rests { Rests path }
    requires guest { path.guest ≡ new_guest (plan_of script.now) }
    requires path { runner.old.path.value ≡ path }
    ensures ran { IfOk result (λ over. (before : OnePath) × IsBetween script.now runner.new before × RanPart before over Unload) }
    ensures all { OnOk result (runner.new.phase ≡ length (parts script.now)) }
{
    let path = contacted(rt, script, path, runner)?;
    let path = run_phases(rt, gate, alloc, script, path, runner)?;
    Ok(path.run(rt, Part::Unload)?)
}

/// The control path of a script whose guest and host agreed on a version, and whose devices were offered.
fn contacted<R: Threads + Wait + Sync>(
    rt: &R,
    script: &Script,
    path: ControlPath,
    runner: &Runner,
) -> Result<ControlPath, AllocError>
    requires so_far { RunsSoFar script.now runner.now }
    requires none { runner.now.phase ≡ 0 }
    requires rests { Rests path }
    requires guest { path.guest ≡ new_guest (plan_of script.now) }
    requires path { runner.now.path.value ≡ path }
    ensures between { IfOk result (λ after. IsBetween script.now runner.now after) }
{
    Ok(path.run(rt, Part::Contact)?)
}

/// Runs all phases.
fn run_phases<R: Threads + Wait + Sync, G: Gate>(
    rt: &R,
    gate: &G,
    alloc: Global,
    script: &Script,
    path: ControlPath,
    runner: &mut Runner,
) -> Result<ControlPath, AllocError>
    requires { IsBetween script.now runner.old path }
    ensures between { IfOk result (λ after. IsBetween script.now runner.new after) }
    ensures all { OnOk result (runner.new.phase ≡ length (parts script.now)) }
{
    let mut path = path;
    while has_phase(script, runner) {
        path = run_next(rt, gate, alloc, script, path, runner)?;
    }
    Ok(path)
}

/// Whether a phase of the script is left.
fn has_phase(script: &Script, runner: &Runner) -> bool
    requires { RunsSoFar script.now runner.now }
    ensures more { result ≡ true → runner.now.phase < length (parts script.now) }
    ensures over { result ≡ false → runner.now.phase ≡ length (parts script.now) }
{
    runner.has_next()
}

/// Runs the next phase: its channels are opened, carry their requests, and are closed.
fn run_next<R: Threads + Wait + Sync, G: Gate>(
    rt: &R,
    gate: &G,
    alloc: Global,
    script: &Script,
    path: ControlPath,
    runner: &mut Runner,
) -> Result<ControlPath, AllocError>
    requires between { IsBetween script.now runner.old path }
    requires more { runner.old.phase < length (parts script.now) }
    ensures between { IfOk result (λ after. IsBetween script.now runner.new after) }
    ensures one { OnOk result (runner.new.phase ≡ runner.old.phase + 1) }
{
    let phase = runner.phase();
    let path = path.run(rt, Part::PhaseStart(phase))?;
    let Ok(()) = runner.run_next(rt, gate, alloc, script, &path) else {
        drop(path);
        return Err(AllocError);
    };
    Ok(path.run(rt, Part::PhaseEnd(phase))?)
}
