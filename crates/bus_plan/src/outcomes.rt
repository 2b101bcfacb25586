//! The outcomes of the lines of a phase.
ghost use Rattle.std.specs.Prelude.{◌≡◌, unwrap_or, ◌<◌, ◌++◌, ◌∷◌, List, length, map, None, Some, [], true, is_some, OnOk, slice_index_or};
ghost use Rattle.bus_script.specs.declared.outcome.LineResult.{LineResult as OneResult};
ghost use Rattle.script_lines.specs.declared.line.Line.{Line as OneLine};
ghost use Rattle.script_phases.specs.Openings.{Phase};
ghost use Rattle.bus_model.specs.Run.{Carried, modified_by, nth_of, source_of, outcome_at, outcomes_in};
ghost use Rattle.bus_plan.specs.Heard.{IsBelow, AllBelow};
ghost use Rattle.bus_plan.specs.Endings.{AreEnded, outcome_left};
ghost use Rattle.bus_plan.specs.Outcomes.{AreTold, AreLeft, HasNext, HasOutcomes, MovesOn, TakesOne, Tells};

use crate::{Ending, Outcomes};
use bus_script::{Line, LineResult, What};
use contact::{Version, answers_modify, has_modify, tried};
use std::alloc::AllocError;

/// Puts the outcome of the next request of a device, which ended so, behind others. A device that an earlier phase ended serves none, and its outcomes stay.
fn push_next(
    ended: Option<Ending>,
    outcomes: &mut Outcomes,
    device: usize,
    results: &mut Vec<LineResult>,
) -> Result<(), AllocError>
    requires device { device < length outcomes.old }
    requires has { ended ≡ None → is_some (nth_of (slice_index_or outcomes.old device []) 0) ≡ true }
    ensures { OnOk result ((told : OneResult) × (results.new.items ≡ results.old.items ++ told ∷ []) × TakesOne (outcome_left ended) device outcomes.old told outcomes.new) }
{
    match ended {
        Some(Ending::Rescinded) => results.push(LineResult::Gone)?,
        Some(Ending::Closed) => results.push(LineResult::Closed)?,
        None => results.push(outcomes.take_next(device))?,
    }
    Ok(())
}

/// How the interrupts of a device's first channel are moved, by the version: from 5.3 on the host answers, and below 4.1 there is no message for it.
fn modified_by(version: Version, vp: u32) -> LineResult
    ensures { result ≡ modified_by version.0 vp }
{
    if answers_modify(version) {
        LineResult::Modified { vp, answered: true }
    } else if has_modify(version) {
        LineResult::Modified {
            vp,
            answered: false,
        }
    } else {
        LineResult::Unsupported
    }
}

/// The outcome of a line that moves them on a device which an earlier phase ended so, or none did.
fn moved_on(ended: Option<Ending>, version: Version, vp: u32) -> LineResult
    ensures { result ≡ unwrap_or (outcome_left ended) (modified_by version.0 vp) }
{
    match ended {
        Some(Ending::Rescinded) => LineResult::Gone,
        Some(Ending::Closed) => LineResult::Closed,
        None => modified_by(version, vp),
    }
}

/// The outcome of one more line, which is moved out of `outcomes` where it is a request's.
fn tell_line(
    version: Version,
    ended: &[Option<Ending>],
    outcomes: &mut Outcomes,
    what: &What,
    results: &mut Vec<LineResult>,
) -> Result<(), AllocError>
    requires ended { IsBelow (length ended.now) what.now }
    requires outcomes { IsBelow (length outcomes.old) what.now }
    requires has { HasNext ended.now outcomes.old what.now }
    ensures tells { OnOk result ((p : Phase) (channels : List Carried) (before : List OneLine) → p.version ≡ version.0 → AreEnded p.earlier ended.now → AreLeft p channels ended.now before outcomes.old
        → Tells (map (outcome_at p channels) (source_of p before what.now)) results.old.items results.new.items) }
    ensures on { OnOk result (MovesOn what.now ended.now outcomes.old outcomes.new) }
{
    match what {
        What::Contact { guest, host } => {
            let tried = tried(*guest, *host);
            results.push(LineResult::Version { tried })?;
            Ok(())
        }
        What::Ask { device, .. } => {
            let at = *device as usize;
            push_next(ended[at], outcomes, at, results)
        }
        What::Modify { device, vp } => {
            results.push(moved_on(ended[*device as usize], version, *vp))?;
            Ok(())
        }
        _ => Ok(()),
    }
}

/// The outcome of each line of a phase that has one, behind others. `version` is the agreed one, and `ended` says how an earlier phase ended each device. `outcomes` has those of the
/// requests of the phase, channel by channel, and each is moved out of it.
pub fn line_results(
    version: Version,
    ended: &[Option<Ending>],
    mut outcomes: Outcomes,
    part: &[Line],
    results: &mut Vec<LineResult>,
) -> Result<(), AllocError>
    requires below { AllBelow (length ended.now) part.now }
    requires devices { length outcomes ≡ length ended.now }
    requires has { HasOutcomes part.now ended.now outcomes }
    ensures { OnOk result ((p : Phase) (channels : List Carried) → p.version ≡ version.0 → p.part ≡ part.now → AreEnded p.earlier ended.now → AreTold p channels (length ended.now) outcomes → Tells (outcomes_in p channels) results.old.items results.new.items) }
{
    for line in part {
        tell_line(version, ended, &mut outcomes, &line.what, results)?;
    }
    Ok(())
}
