//! Sides, steps and endings by their numbers.
ghost use Rattle.std.specs.Prelude.{◌≡◌, ◌<◌, slice_index_or};
ghost use Rattle.io_edge.specs.declared.side.Side.TheVariants.{Guest};
ghost use Rattle.ring_machine.specs.declared.machine.Stage.TheVariants.{Idle};
ghost use Rattle.ring_machine.specs.declared.machine.Ending.TheVariants.{Fresh};
ghost use Rattle.vmbus_ring_c.specs.Numbers.{sides, stages, endings, number_of_side, number_of_stage, number_of_ending, is_set, number_of_flag};

use ring_machine::{Ending, Side, Stage};

const STAGES: [Stage; 29] = [
    Stage::Idle,
    Stage::Stopped,
    Stage::SendRead,
    Stage::SendCell,
    Stage::SendWrite,
    Stage::SendMask,
    Stage::SendLook,
    Stage::SendRaise,
    Stage::TakeWrite,
    Stage::TakeFirst,
    Stage::TakeCell,
    Stage::CommitRead,
    Stage::CommitFeature,
    Stage::CommitPending,
    Stage::CommitWrite,
    Stage::CommitRaise,
    Stage::ArmPending,
    Stage::ArmMask,
    Stage::ArmWrite,
    Stage::ArmRead,
    Stage::ArmMark,
    Stage::ArmUndoMask,
    Stage::ArmUndoPending,
    Stage::PollSignal,
    Stage::PollMask,
    Stage::PollPending,
    Stage::MarkStore,
    Stage::MarkRaise,
    Stage::PeerMark,
];

const ENDINGS: [Ending; 19] = [
    Ending::Fresh,
    Ending::SentQuiet,
    Ending::SentRaised,
    Ending::Full,
    Ending::BadPeer,
    Ending::Took,
    Ending::Empty,
    Ending::BadIndex,
    Ending::BadLength,
    Ending::BadOffset,
    Ending::CommittedQuiet,
    Ending::CommittedRaised,
    Ending::FellAsleep,
    Ending::FoundWork,
    Ending::NoSignal,
    Ending::Woke,
    Ending::Marked,
    Ending::PeerMarkDown,
    Ending::PeerMarkUp,
];

// The side with a number: the guest's where there is none.
pub(crate) fn side(number: u32) -> Side
    ensures { result ≡ slice_index_or sides number Guest }
{
    if number == 1 { Side::Host } else { Side::Guest }
}

// The step with a number: none is under way where there is no such.
pub(crate) fn stage(number: u32) -> Stage
    ensures { number < 29 → result ≡ slice_index_or stages number Idle }
{
    let stages = STAGES;
    if (number as usize) < stages.len() {
        stages[number as usize]
    } else {
        Stage::Idle
    }
}

// The ending with a number.
pub(crate) fn ending(number: u32) -> Ending
    ensures { result ≡ slice_index_or endings number Fresh }
{
    let endings = ENDINGS;
    if (number as usize) < endings.len() {
        endings[number as usize]
    } else {
        Ending::Fresh
    }
}

pub(crate) fn side_number(side: Side) -> u32
    ensures { result ≡ number_of_side side }
{
    match side {
        Side::Guest => 0,
        Side::Host => 1,
    }
}

pub(crate) fn stage_number(stage: Stage) -> u32
    ensures value { result ≡ number_of_stage stage }
    ensures known { result < 29 }
{
    match stage {
        Stage::Idle => 0,
        Stage::Stopped => 1,
        Stage::SendRead => 2,
        Stage::SendCell => 3,
        Stage::SendWrite => 4,
        Stage::SendMask => 5,
        Stage::SendLook => 6,
        Stage::SendRaise => 7,
        Stage::TakeWrite => 8,
        Stage::TakeFirst => 9,
        Stage::TakeCell => 10,
        Stage::CommitRead => 11,
        Stage::CommitFeature => 12,
        Stage::CommitPending => 13,
        Stage::CommitWrite => 14,
        Stage::CommitRaise => 15,
        Stage::ArmPending => 16,
        Stage::ArmMask => 17,
        Stage::ArmWrite => 18,
        Stage::ArmRead => 19,
        Stage::ArmMark => 20,
        Stage::ArmUndoMask => 21,
        Stage::ArmUndoPending => 22,
        Stage::PollSignal => 23,
        Stage::PollMask => 24,
        Stage::PollPending => 25,
        Stage::MarkStore => 26,
        Stage::MarkRaise => 27,
        Stage::PeerMark => 28,
    }
}

pub(crate) fn ending_number(ending: Ending) -> u32
    ensures { result ≡ number_of_ending ending }
{
    match ending {
        Ending::Fresh => 0,
        Ending::SentQuiet => 1,
        Ending::SentRaised => 2,
        Ending::Full => 3,
        Ending::BadPeer => 4,
        Ending::Took => 5,
        Ending::Empty => 6,
        Ending::BadIndex => 7,
        Ending::BadLength => 8,
        Ending::BadOffset => 9,
        Ending::CommittedQuiet => 10,
        Ending::CommittedRaised => 11,
        Ending::FellAsleep => 12,
        Ending::FoundWork => 13,
        Ending::NoSignal => 14,
        Ending::Woke => 15,
        Ending::Marked => 16,
        Ending::PeerMarkDown => 17,
        Ending::PeerMarkUp => 18,
    }
}

// The flag with a number.
pub(crate) fn flag(number: u32) -> bool
    ensures { result ≡ is_set number }
{
    number != 0
}

pub(crate) fn flag_number(flag: bool) -> u32
    ensures { result ≡ number_of_flag flag }
{
    u32::from(flag)
}
