//! Laws of what a run comes to. The functions do nothing: each one's contract is the law.
ghost use Rattle.vmbus_main.specs.Opened.{CarriedOnOpened};

/// The channels that carry the packets are those that the controls open, phase by phase in order
/// of relid. Both read one definition of the channels of each phase.
pub fn opened_is_carried()
    ensures { CarriedOnOpened }
{}
