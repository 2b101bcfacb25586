//! The channels of a phase: all are opened, all run at once, and all are closed, in order of their relids.
ghost use Rattle.std.specs.Prelude.{◌≡◌, ◌+◌, ◌*◌, ◌≤◌, length, All, IfOk, OnOk};
ghost use Rattle.script_phases.specs.Openings.{Phase};
ghost use Rattle.bus_run.specs.Devices.{IsReady};
ghost use Rattle.bus_run.specs.Channels.{CanRun, ChannelsRan};
ghost use Rattle.bus_run.specs.Opened.{HaveWorked};
ghost use Rattle.bus_run.specs.Settings.{HasLimits};

use crate::closing::{close_all, unite_all};
use crate::due::all_due;
use crate::opening::{open_all, share_all};
use crate::phase_work::PhaseWork;
use crate::settings::Settings;
use bus_model::ChannelRun;
use bus_plan::{ChannelOrder, Outcomes};
use control_path::ControlPath;
use device_any::DeviceBox;
use io_edge::Gate;
use std::alloc::{AllocError, Global};
use std::snapshot::Snapshot;
use std::sync::Wait;
use std::thread::Threads;

/// Runs all channels that a phase opens, and answers the outcomes of their requests. The requests are moved out of the plan to the workers that ask them, and
/// the workers are noted behind those of the phases before. `is_last` says that no phase follows.
pub fn run_channels<R: Threads + Wait + Sync, G: Gate>(
    rt: &R,
    gate: &G,
    alloc: Global,
    phase: u32,
    is_last: bool,
    plan: Vec<ChannelOrder>,
    settings: &[Settings],
    boxes: &mut Vec<DeviceBox>,
    settled: &mut Vec<ChannelRun>,
    work: &mut Vec<PhaseWork>,
    path: &ControlPath,
) -> Result<Outcomes, AllocError>
    requires can { (p : Phase) × CanRun phase plan.items boxes.old.items p }
    requires ready { All (IsReady (4096 * phase)) boxes.old.items }
    requires settings { length settings.now ≡ length boxes.old.items }
    requires limits { All HasLimits settings.now }
    requires phase { phase ≤ 20000 }
    requires few { length boxes.old.items ≤ 16 }
    ensures ran { IfOk result (λ outcomes. (p : Phase) → CanRun phase plan.items boxes.old.items p → ChannelsRan p boxes.old.items boxes.new.items settled.old.items settled.new.items outcomes) }
    ensures worked { OnOk result ((p : Phase) → CanRun phase plan.items boxes.old.items p → HaveWorked path.now.guest.posted settings.now p settled.old.items settled.new.items work.old.items work.new.items) }
    ensures ready { OnOk result (All (IsReady (4096 * (phase + 1))) boxes.new.items) }
{
    let Ok(()) = share_all(alloc, phase, &plan, boxes) else {
        drop(plan);
        return Err(AllocError);
    };
    let Ok(dues) = all_due(alloc, &plan) else {
        drop(plan);
        return Err(AllocError);
    };
    let Ok(pairs) = open_all(alloc, plan, settings, boxes, path) else {
        drop(dues);
        return Err(AllocError);
    };
    let opened = Snapshot::of(&pairs);
    let Ok(mut done) = Vec::with_capacity(alloc, pairs.len()) else {
        drop(dues);
        drop(pairs);
        return Err(AllocError);
    };
    bus_threads::run_phase(rt, pairs, &mut done, gate);
    let left = Snapshot::of(&done);
    let Ok(outcomes) = close_all(alloc, phase, is_last, &dues, done, boxes, settled) else {
        drop(dues);
        return Err(AllocError);
    };
    drop(dues);
    unite_all(boxes);
    let Ok(()) = work.push(PhaseWork { opened, left }) else {
        drop(outcomes);
        return Err(AllocError);
    };
    Ok(outcomes)
}
