//! Whether the numbers of an end are those of one.
ghost use Rattle.std.specs.Prelude.{◌≡◌, ◌<◌, ◌^◌, ◌&&◌, ◌||◌, not, true};
ghost use Rattle.ring_machine.specs.Steps.{IsSound, is_arming_at, is_broken, is_busy_at, is_looking_at, sleeps_at};
ghost use Rattle.vmbus_ring_c.specs.Sound.{counts_fit, fits_ring, fits_stage, flags_fit, is_first_at, is_loading_at, is_wanting_at, is_stopped_at, rests, stops_fit};

use ring_machine::{EndMachine, Ending, Stage};

// The most cells of a ring: 128 MB.
const MOST_CELLS: u32 = 16777216;

// Indices and lengths lie in the ring.
fn fits_ring(m: &EndMachine) -> bool
    ensures { result ≡ fits_ring m.now }
{
    512 <= m.cells
        && m.cells <= MOST_CELLS
        && m.write < m.cells
        && m.read < m.cells
        && m.start < m.cells
        && m.seen < m.cells
        && m.old < m.cells
        && m.len < m.cells
        && m.len + 1 < m.cells
        && m.done <= m.len
        && m.want < 8 * m.cells
        && m.room <= m.cells
        && m.words < m.cells
}

fn is_looking(stage: Stage) -> bool
    ensures { result ≡ is_looking_at stage }
{
    matches!(
        stage,
        Stage::ArmWrite | Stage::ArmRead | Stage::ArmMark | Stage::ArmUndoMask
    )
}

fn is_arming(stage: Stage) -> bool
    ensures { result ≡ is_arming_at stage }
{
    matches!(
        stage,
        Stage::ArmPending
            | Stage::ArmMask
            | Stage::ArmUndoPending
            | Stage::ArmWrite
            | Stage::ArmRead
            | Stage::ArmMark
            | Stage::ArmUndoMask
    )
}

fn sleeps(stage: Stage) -> bool
    ensures { result ≡ sleeps_at stage }
{
    matches!(stage, Stage::Idle | Stage::PollSignal)
}

fn is_busy(stage: Stage) -> bool
    ensures { result ≡ is_busy_at stage }
{
    !matches!(stage, Stage::Idle | Stage::Stopped)
}

fn is_stopped(stage: Stage) -> bool
    ensures { result ≡ is_stopped_at stage }
{
    matches!(stage, Stage::Stopped)
}

fn is_first(stage: Stage) -> bool
    ensures { result ≡ is_first_at stage }
{
    matches!(stage, Stage::TakeFirst)
}

fn is_loading(stage: Stage) -> bool
    ensures { result ≡ is_loading_at stage }
{
    matches!(stage, Stage::TakeCell)
}

fn is_wanting(stage: Stage) -> bool
    ensures { result ≡ is_wanting_at stage }
{
    matches!(stage, Stage::ArmPending | Stage::ArmRead)
}

fn is_broken(ended: Ending) -> bool
    ensures { result ≡ is_broken ended }
{
    matches!(
        ended,
        Ending::BadPeer | Ending::BadIndex | Ending::BadLength | Ending::BadOffset
    )
}

// The second holds where the first does.
fn implies(a: bool, b: bool) -> bool
    ensures { result ≡ (not a || b) }
{
    !a || b
}

fn both(a: bool, b: bool) -> bool
    ensures { result ≡ (a && b) }
{
    a && b
}

// An end that is asleep rests, with mask 0 and all given back.
fn rests(m: &EndMachine) -> bool
    ensures { result ≡ rests m.now }
{
    both(
        !m.masked,
        both(m.start == m.read, both(sleeps(m.stage), !m.marked)),
    )
}

// The counts fit the step.
fn counts(m: &EndMachine) -> bool
    ensures { result ≡ counts_fit m.now }
{
    both(
        implies(is_first(m.stage), m.done == 0),
        both(
            implies(is_loading(m.stage), both(0 < m.done, m.done < m.len)),
            implies(is_wanting(m.stage), 0 < m.want),
        ),
    )
}

// The flags fit the step.
fn flags(m: &EndMachine) -> bool
    ensures { result ≡ flags_fit m.now }
{
    both(
        implies(is_arming(m.stage), m.start == m.read),
        both(
            implies(is_looking(m.stage), !m.masked),
            implies(is_busy(m.stage), !m.marked),
        ),
    )
}

// An end is stopped where it refused what it loaded, and there alone.
fn stops(m: &EndMachine) -> bool
    ensures { result ≡ stops_fit m.now }
{
    both(
        implies(is_broken(m.ended), is_stopped(m.stage)),
        implies(is_stopped(m.stage), is_broken(m.ended)),
    )
}

// The flags and counts fit the step.
fn fits_stage(m: &EndMachine) -> bool
    ensures { result ≡ fits_stage m.now }
{
    both(
        flags(m),
        both(implies(m.asleep, rests(m)), both(counts(m), stops(m))),
    )
}

// A number of 32 bits.
fn is_word(v: u32) -> bool
    ensures { v < 2 ^ 32 }
{
    let _ = v;
    true
}

// A machine's numbers are those of one that the steps of an end can make.
pub(crate) fn is_sound(m: &EndMachine) -> bool
    ensures yes { result ≡ true → IsSound m.now }
    ensures no { IsSound m.now → result ≡ true }
{
    let _ = is_word(m.value);
    let ring = fits_ring(m);
    let stage = fits_stage(m);
    both(ring, stage)
}
