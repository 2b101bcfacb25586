//! What one line says by itself.
use crate::command::{Command, Put};
use ring_core::Change;

/// What a line says beside rings of so many pages, before it is held against the lines before it. A value out of range is none.
#[derive(Drop)]
pub(crate) enum Said {
    /// It has no words, or is a comment.
    Nothing,
    /// It says how many data pages each ring has.
    Ring(Option<u32>),
    /// It sets a word before all steps.
    Set(Option<Put>),
    /// It sets a word just before a step.
    Before(Option<Change>),
    /// It asks something of more than 512 bytes.
    Long,
    /// It asks something.
    Asks(Option<Command>),
}
