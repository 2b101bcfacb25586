//! Laws of what a guest has told its host of its channels' page lists. The functions do nothing: each one's contract is the law.
ghost use Rattle.control_path.specs.Told.{BuffersAreTold, StartIsSaid};

/// A guest that is done with the start of a phase posted all that it says up to there, and nothing behind it.
pub fn start_is_said()
    ensures { StartIsSaid }
{}

/// The last two page lists that it told for a network's channel of the phase are those that the plan has for its buffers, the receive buffer's first.
pub fn buffers_are_told()
    ensures { BuffersAreTold }
{}
