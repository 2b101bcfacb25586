//! Which devices earlier phases ended.
ghost use Rattle.std.specs.Prelude.{◌≡◌, ◌++◌, List, length, true, false};
ghost use Rattle.script_lines.specs.declared.line.Line.{Line as OneLine};
ghost use Rattle.bus_plan.specs.Heard.{IsBelow, AllBelow};
ghost use Rattle.bus_plan.specs.Endings.{AreEnded, EndsOn, left_on, outcome_left};

use crate::Ending;
use bus_script::{Line, What};
use phase_plan::{DeviceLine, to_device};

/// Notes that a device is closed, unless it has ended already.
fn close(ending: &mut Option<Ending>)
    ensures { outcome_left ending.new ≡ left_on false true (outcome_left ending.old) }
{
    if ending.is_none() {
        *ending = Some(Ending::Closed);
    }
}

/// Notes the device that a line rescinds or closes. A rescind goes before a close.
fn end(ended: &mut [Option<Ending>], what: &What)
    requires { IsBelow (length ended.old) what.now }
    ensures { EndsOn what.now ended.old ended.new }
{
    match to_device(what) {
        Some((device, DeviceLine::Rescinds(_))) => ended[device as usize] = Some(Ending::Rescinded),
        Some((device, DeviceLine::Shuts)) => close(&mut ended[device as usize]),
        Some((_, DeviceLine::Asks(_))) => {}
        Some((_, DeviceLine::Modifies(_))) => {}
        None => {}
    }
}

/// Notes each device that the lines of a phase rescind or close.
pub fn mark_ended(ended: &mut [Option<Ending>], part: &[Line])
    requires { AllBelow (length ended.old) part.now }
    ensures count { length ended.new ≡ length ended.old }
    ensures ended { (earlier : List OneLine) → AreEnded earlier ended.old → AreEnded (earlier ++ part.now) ended.new }
{
    for line in part {
        end(ended, &line.what);
    }
}
