//! One phase of a script.
ghost use Rattle.std.specs.Prelude.{◌≡◌, ◌+◌, ◌*◌, ◌^◌, ◌<◌, ◌≤◌, ◌++◌, List, length, map, sum_by, All, IfOk, OnOk};
ghost use Rattle.std.specs.List.{AllByRecursion};
ghost use Rattle.script_lines.specs.declared.line.Line.{Line as OneLine};
ghost use Rattle.script_lines.specs.Parts.{asks_in, channels_of};
ghost use Rattle.script_lines.specs.WellFormed.{AllRight, AllGo};
ghost use Rattle.script_phases.specs.Openings.{Phase, others, subs_of};
ghost use Rattle.bus_plan.specs.Endings.{AreEnded};
ghost use Rattle.device_any.specs.Boxes.{subs_in};
ghost use Rattle.bus_run.specs.Devices.{IsReady};
ghost use Rattle.bus_run.specs.Opened.{HaveWorked};
ghost use Rattle.bus_run.specs.Settings.{HasLimits};
ghost use Rattle.bus_run.specs.Whole.{IsThis, PhaseRan, specs_of};

use crate::channels::run_channels;
use crate::phase_work::PhaseWork;
use crate::settings::Settings;
use bus_model::ChannelRun;
use bus_plan::{Ending, line_results, mark_ended, plan_part};
use bus_script::{Line, LineResult};
use contact::Version;
use control_path::ControlPath;
use device_any::DeviceBox;
use io_edge::Gate;
use std::alloc::{AllocError, Global};
use std::sync::Wait;
use std::thread::Threads;

/// How many channels each device has beside the first one.
fn all_subs(alloc: Global, boxes: &[DeviceBox]) -> Result<Vec<u32>, AllocError>
    ensures { IfOk result (λ subs. subs.items ≡ map subs_in boxes.now) }
{
    let mut subs = Vec::new(alloc);
    for own in boxes {
        subs.push(own.subs())?;
    }
    Ok(subs)
}

/// Plans a phase, runs its channels, tells the outcomes of its lines in their order, and notes which devices it ended. `version` is the agreed one. `relid` is the first one that no
/// channel has had. `is_last` says that no phase follows.
pub fn run_script_phase<R: Threads + Wait + Sync, G: Gate>(
    rt: &R,
    gate: &G,
    alloc: Global,
    version: Version,
    phase: u32,
    is_last: bool,
    part: &[Line],
    settings: &[Settings],
    ended: &mut [Option<Ending>],
    relid: &mut u32,
    boxes: &mut Vec<DeviceBox>,
    settled: &mut Vec<ChannelRun>,
    results: &mut Vec<LineResult>,
    work: &mut Vec<PhaseWork>,
    path: &ControlPath,
) -> Result<(), AllocError>
    requires ready { All (IsReady (4096 * phase)) boxes.old.items }
    requires right { AllRight (specs_of boxes.old.items) part.now }
    requires go { AllGo part.now }
    requires asks { asks_in part.now ≤ 4096 }
    requires this { (p : Phase) × IsThis version.0 phase part.now ended.old (specs_of boxes.old.items) relid.old p }
    requires room { relid.old + 48 < 2 ^ 32 }
    requires ended { length ended.old ≡ length boxes.old.items }
    requires settings { length settings.now ≡ length boxes.old.items }
    requires limits { All HasLimits settings.now }
    requires few { length boxes.old.items ≤ 16 }
    requires subs { AllByRecursion (λ s. subs_of s ≤ 3) (specs_of boxes.old.items) }
    requires channels { sum_by channels_of (specs_of boxes.old.items) ≤ 16 }
    requires phase { phase ≤ 20000 }
    ensures ran { OnOk result ((p : Phase) → IsThis version.0 phase part.now ended.old (specs_of boxes.old.items) relid.old p → PhaseRan p boxes.old.items boxes.new.items settled.old.items settled.new.items results.old.items results.new.items) }
    ensures worked { OnOk result ((p : Phase) → IsThis version.0 phase part.now ended.old (specs_of boxes.old.items) relid.old p → HaveWorked path.now.guest.posted settings.now p settled.old.items settled.new.items work.old.items work.new.items) }
    ensures relid { OnOk result ((p : Phase) → IsThis version.0 phase part.now ended.old (specs_of boxes.old.items) relid.old p → relid.new ≡ relid.old + length (others p.opened)) }
    ensures few { OnOk result (relid.new ≤ relid.old + 48) }
    ensures ready { OnOk result (All (IsReady (4096 * (phase + 1))) boxes.new.items) }
    ensures ended { OnOk result ((earlier : List OneLine) → AreEnded earlier ended.old → AreEnded (earlier ++ part.now) ended.new) }
    ensures count { OnOk result (length ended.new ≡ length ended.old) }
{
    let subs = all_subs(alloc, boxes)?;
    let plan = plan_part(alloc, ended, &subs, relid, part)?;
    let outcomes = run_channels(
        rt, gate, alloc, phase, is_last, plan, settings, boxes, settled, work, path,
    )?;
    line_results(version, ended, outcomes, part, results)?;
    mark_ended(ended, part);
    Ok(())
}
