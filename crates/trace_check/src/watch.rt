//! A trace's verdict, as far as its lines go.

use crate::checker::Checker;
use trace_model::WrongWhy;

/// The first line that is wrong, and why.
#[derive(Clone, Copy)]
pub(crate) struct Found {
    /// The line.
    pub(crate) line: u32,
    /// The first reason against it.
    pub(crate) why: WrongWhy,
}

/// A channel that the lines go on, and the first line that is wrong. From there on the channel stays.
#[derive(Drop)]
pub(crate) struct Watch {
    /// The channel.
    pub(crate) checker: Checker,
    /// The line that is wrong.
    pub(crate) wrong: Option<Found>,
}
