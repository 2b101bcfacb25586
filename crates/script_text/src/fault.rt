//! Why a script is not one.
ghost use Rattle.std.specs.Prelude.{◌≡◌};
ghost use Rattle.script_text.specs.declared.fault.ParseFault.TheVariants.{Memory};

use std::alloc::{AllocError, AllocFailed};
use thiserror::Error;

/// Why a line is refused.
#[derive(Clone, Copy, Debug, PartialEq, Eq, Error)]
pub enum Why6 {
    /// Its words are no row of the table of lines, or a word has not its form, or it has no place.
    #[error("Form")]
    Form = 1,
    /// Its name was not offered before, with the kind of device that it takes.
    #[error("UnknownName")]
    UnknownName = 2,
    /// It says again what may be said once.
    #[error("Repeat")]
    Repeat = 3,
    /// A number of it is out of range.
    #[error("Range")]
    Range = 4,
    /// It is a line, a request or a channel too many.
    #[error("Limit")]
    Limit = 5,
    /// It stands behind a line that it has to precede.
    #[error("Order")]
    Order = 6,
}

/// The first wrong line of a script, and the first reason against it.
#[derive(Clone, Copy, Debug, PartialEq, Eq, Error)]
#[error("script line {line}: {why}")]
pub struct ScriptFault {
    /// The line; lines count from 1. Line 0 is the input as a whole.
    pub line: u32,
    /// The reason.
    pub why: Why6,
}

/// Why no script was read.
#[derive(Clone, Copy, Debug, PartialEq, Eq, Error)]
pub enum ParseFault {
    /// A line is wrong.
    #[error("{0}")]
    Script(ScriptFault),
    /// Want of memory.
    #[error("want of memory")]
    Memory,
}

impl<T: Drop> From<AllocFailed<T>> for ParseFault {
    ghost from_gives = { λ _ e. e ≡ Memory };

    fn from(_: AllocFailed<T>) -> Self {
        ParseFault::Memory
    }
}

impl From<AllocError> for ParseFault {
    ghost from_gives = { λ _ e. e ≡ Memory };

    fn from(_: AllocError) -> Self {
        ParseFault::Memory
    }
}
