//! The run of a script, phase by phase.
ghost use Rattle.std.specs.Prelude.{◌≡◌, ◌+◌, ◌<◌, ◌≤◌, ◌∷◌, [], ◌++◌, List, length, map, take, drop, replicate, None, All, IfOk, OnOk, IsTrue, vec_capacity, ◌↔◌, count_by};
ghost use Rattle.device_kinds.specs.Logs.{log_of, EachHistory};
ghost use Rattle.bus_model.specs.Run.{IsBusRun};
ghost use Rattle.script_lines.specs.Parts.{parts, offered, offered_by};
ghost use Rattle.script_lines.specs.declared.line.Line.{Line as OneLine};
ghost use Rattle.script_lines.specs.declared.line.DeviceSpec.{DeviceSpec as OneSpec};
ghost use Rattle.bus_script.specs.Report.{prints};
ghost use Rattle.script_lines.specs.WellFormed.{AllRight};
ghost use Rattle.script_phases.specs.Openings.{phases};
ghost use Rattle.device_any.specs.Boxes.{IsKept, box_log, setup_of, spec_of};
ghost use Rattle.bus_run.specs.Opened.{AllRanAsSet};
ghost use Rattle.bus_run.specs.Parts.{AreOpen};
ghost use Rattle.control_path.specs.Path.{IsSamePath};
ghost use Rattle.bus_run.specs.Whole.{AreFresh, CanMake, RunsSoFar, setups_from};

use crate::bads::bad_places;
use crate::phase::run_script_phase;
use crate::phase_work::PhaseWork;
use crate::settings::{Settings, all_settings};
use bus_model::{ChannelRun, DeviceHistory};
use bus_plan::{Ending, agreed};
use bus_script::{Line, LineResult, Script, What};
use contact::Version;
use control_path::ControlPath;
use device_any::DeviceBox;
use io_edge::Gate;
use phase_plan::part_at;
use std::alloc::{AllocError, Global};
use std::snapshot::Snapshot;
use std::sync::Wait;
use std::thread::Threads;

/// What a run of a script gives: what each channel carried, in order of phase and then of relid; what each device served, in order of offer; and the
/// outcome of each line that prints. A runner alone makes one. Contracts see the workers of each phase and the control path whose parts stood round the phases, too.
pub struct ScriptRun {
    settled: Vec<ChannelRun>,
    histories: Vec<DeviceHistory>,
    results: Vec<LineResult>,
    work: Vec<PhaseWork>,
    path: Snapshot<ControlPath>,
}

// By this a run goes by one call wherever it goes, and its parts go here alone.
impl Drop for ScriptRun {
    fn drop(self) {
        let (settled, histories, results) = self.into_lists();
        drop(settled);
        drop(histories);
        drop(results);
    }
}

impl ScriptRun {
    /// The three lists.
    pub fn into_lists(self) -> (Vec<ChannelRun>, Vec<DeviceHistory>, Vec<LineResult>)
        ensures settled { result.0 ≡ self.settled }
        ensures histories { result.1 ≡ self.histories }
        ensures results { result.2 ≡ self.results }
    {
        let ScriptRun {
            settled,
            histories,
            results,
            work: _,
            path: _,
        } = self;
        (settled, histories, results)
    }
}

/// A script under way, between two of its phases.
pub struct Runner {
    // the version that both ends agreed on
    version: Version,
    boxes: Vec<DeviceBox>,
    settings: Vec<Settings>,
    // how an earlier phase ended each device
    ended: Vec<Option<Ending>>,
    phase: u32,
    // where the lines of the next phase begin
    next: Option<usize>,
    // the first relid that no channel has had
    relid: u32,
    settled: Vec<ChannelRun>,
    results: Vec<LineResult>,
    // the workers of the phases that ran
    work: Vec<PhaseWork>,
    // the control path whose parts stand round the phases, as it was at the start
    path: Snapshot<ControlPath>,
}

// So does a runner.
impl Drop for Runner {
    fn drop(self) {
        let Runner {
            version: _,
            boxes,
            settings,
            ended,
            phase: _,
            next: _,
            relid: _,
            settled,
            results,
            work,
            path: _,
        } = self;
        drop(boxes);
        drop(settings);
        drop(ended);
        drop(settled);
        drop(results);
        drop(work);
    }
}

/// The device that a line offers, with the bad places of all lines.
fn offer(
    alloc: Global,
    boxes: &mut Vec<DeviceBox>,
    lines: &[Line],
    what: &What,
) -> Result<(), AllocError>
    requires { CanMake lines.now (length boxes.old.items) what.now }
    ensures { OnOk result ((kinds : List OneSpec) → AreFresh lines.now kinds boxes.old.items → AreFresh lines.now (kinds ++ offered_by what.now) boxes.new.items) }
{
    match what {
        What::Offer { name: _, device } => {
            let bad = bad_places(alloc, boxes.len(), lines)?;
            boxes.push(DeviceBox::make(alloc, *device, &bad)?)?;
            Ok(())
        }
        _ => Ok(()),
    }
}

/// The devices that a script offers.
fn new_boxes(alloc: Global, lines: &[Line]) -> Result<Vec<DeviceBox>, AllocError>
    requires { AllRight (offered lines.now) lines.now }
    ensures { IfOk result (λ boxes. AreFresh lines.now (offered lines.now) boxes.items) }
{
    let mut boxes = Vec::new(alloc);
    for line in lines {
        offer(alloc, &mut boxes, lines, &line.what)?;
    }
    Ok(boxes)
}

/// What the devices served.
fn histories_of(alloc: Global, boxes: Vec<DeviceBox>) -> Result<Vec<DeviceHistory>, AllocError>
    requires { All IsKept boxes.items }
    ensures logs { IfOk result (λ histories. map log_of histories.items ≡ map box_log boxes.items) }
    ensures legal { IfOk result (λ histories. (lines : List OneLine) → map setup_of boxes.items ≡ setups_from lines 0 (map spec_of boxes.items) → EachHistory lines 0 (map spec_of boxes.items) histories.items) }
{
    let mut histories = Vec::new(alloc);
    for own in boxes {
        histories.push(own.into_history())?;
    }
    Ok(histories)
}

/// So many devices, none of which has ended.
fn none_ended(alloc: Global, count: usize) -> Result<Vec<Option<Ending>>, AllocError>
    ensures { IfOk result (λ ended. ended.items ≡ replicate count None) }
{
    let mut ended = Vec::new(alloc);
    for _ in 0..count {
        ended.push(None)?;
    }
    Ok(ended)
}

/// The first relid behind those of so many offers: they count from 1.
fn first_relid(offers: usize) -> u32
    requires { offers ≤ 16 }
    ensures { result ≡ offers + 1 }
{
    offers as u32 + 1
}

/// Whether a line has an outcome, which prints.
fn prints(line: &Line) -> bool
    ensures { result ≡ prints line.now }
{
    matches!(
        line.what,
        What::Contact { .. } | What::Ask { .. } | What::Modify { .. }
    )
}

/// Room for an outcome of each line that prints.
fn new_results(alloc: Global, lines: &[Line]) -> Result<Vec<LineResult>, AllocError>
    ensures none { IfOk result (λ results. results.items ≡ []) }
    ensures room { IfOk result (λ results. count_by prints lines.now ≤ vec_capacity results) }
{
    let count = lines.iter().filter(|line| prints(line)).count();
    Vec::with_capacity(alloc, count)
}

impl Runner {
    /// Offers the devices of a script, of which no phase has run. The parts of `path` are to stand round its phases.
    pub fn make(alloc: Global, script: &Script, path: &ControlPath) -> Result<Runner, AllocError>
        ensures so_far { IfOk result (RunsSoFar script.now) }
        ensures phase { IfOk result (λ runner. runner.phase ≡ 0) }
        ensures path { IfOk result (λ runner. runner.path.value ≡ path.now) }
    {
        let lines = script.lines();
        let boxes = new_boxes(alloc, lines)?;
        let count = boxes.len();
        let settings = all_settings(alloc, count, lines)?;
        let ended = none_ended(alloc, count)?;
        let relid = first_relid(count);
        let results = new_results(alloc, lines)?;
        Ok(Runner {
            version: agreed(lines),
            boxes,
            settings,
            ended,
            phase: 0,
            next: Some(0),
            relid,
            settled: Vec::new(alloc),
            results,
            work: Vec::new(alloc),
            path: Snapshot::of(path),
        })
    }

    /// How many phases have run.
    pub fn phase(&self) -> u32
        ensures { result ≡ self.now.phase }
    {
        self.phase
    }

    /// Whether a phase of the script is left.
    pub fn has_next(&self) -> bool
        ensures { (lines : List OneLine) → RunsSoFar lines self.now → IsTrue result ↔ (self.now.phase < length (parts lines)) }
    {
        self.next.is_some()
    }

    /// Runs the next phase: its channels are opened in order of their relids, run all at once, and are closed. `path` shows that the controls opened them:
    /// both are done with the start of this phase, and with nothing behind it. It is the path that the runner was made with, further on: its queues are the same.
    /// The rings of a channel have as many pages, and as many of its requests can be open, as the script sets for its device.
    pub fn run_next<R: Threads + Wait + Sync, G: Gate>(
        &mut self,
        rt: &R,
        gate: &G,
        alloc: Global,
        script: &Script,
        path: &ControlPath,
    ) -> Result<(), AllocError>
        requires so_far { RunsSoFar script.now self.old }
        requires more { self.old.phase < length (parts script.now) }
        requires open { AreOpen script.now self.old.phase path.now }
        requires same { IsSamePath self.old.path.value path.now }
        ensures so_far { OnOk result (RunsSoFar script.now self.new) }
        ensures phase { OnOk result (self.new.phase ≡ self.old.phase + 1) }
        ensures path { self.new.path.value ≡ self.old.path.value }
    {
        let Some(at) = self.next else {
            unreachable!();
        };
        let (part, next) = part_at(script.lines(), at);
        run_script_phase(
            rt,
            gate,
            alloc,
            self.version,
            self.phase,
            next.is_none(),
            part,
            &self.settings,
            &mut self.ended,
            &mut self.relid,
            &mut self.boxes,
            &mut self.settled,
            &mut self.results,
            &mut self.work,
            path,
        )?;
        self.phase += 1;
        self.next = next;
        Ok(())
    }

    /// What ran, once no phase of the script is left, round which the parts of the path that the runner was made with have stood.
    pub fn end(self, alloc: Global) -> Result<ScriptRun, AllocError>
        requires { (lines : List OneLine) × RunsSoFar lines self × (self.phase ≡ length (parts lines)) }
        ensures run { IfOk result (λ ran. (lines : List OneLine) → RunsSoFar lines self → self.phase ≡ length (parts lines) → IsBusRun lines ran.settled.items ran.histories.items ran.results.items) }
        ensures work { IfOk result (λ ran. (lines : List OneLine) → RunsSoFar lines self → self.phase ≡ length (parts lines) → AllRanAsSet lines (phases lines) ran.work.items ran.settled.items) }
        ensures path { IfOk result (λ ran. ran.path.value ≡ self.path.value) }
    {
        let Runner {
            version: _,
            boxes,
            settings: _,
            ended: _,
            phase: _,
            next: _,
            relid: _,
            settled,
            results,
            work,
            path,
        } = self;
        let Ok(histories) = histories_of(alloc, boxes) else {
            drop(settled);
            drop(results);
            drop(work);
            return Err(AllocError);
        };
        Ok(ScriptRun {
            settled,
            histories,
            results,
            work,
            path,
        })
    }
}
