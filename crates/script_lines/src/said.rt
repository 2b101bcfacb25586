//! What one line says by itself.

use crate::asked::Asked;
use crate::offering::Offering;
use contact::Version;
use script_text::Name;

/// What a line says, before it is held against the lines before it. A value out of range is none.
#[derive(Drop)]
pub enum Said {
    /// It has no words, or is a comment.
    Nothing,
    /// It says the highest versions of the guest and of its host.
    Contact(Option<Version>, Option<Version>),
    /// It offers a device.
    Offer(Name, Offering),
    /// It says which block of a disk can't be read.
    Bad(Name, Option<u64>),
    /// It says how many data pages each ring of a device has.
    Ring(Name, Option<u32>),
    /// It says how many requests a channel of a device has open at most.
    Window(Name, Option<u32>),
    /// It asks a device.
    Request(Name, Asked),
    /// It rescinds a device after so many requests, and the last one's answer is held or not.
    Rescind(Name, Option<u32>, bool),
    /// It closes a device.
    Close(Name),
    /// It says to which processor the interrupts of a device's first channel go.
    Modify(Name, Option<u32>),
    /// It begins the next phase.
    Phase,
}
