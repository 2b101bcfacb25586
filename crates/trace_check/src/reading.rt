//! What the lines of an input so far come to.
use crate::watch::Watch;

/// The pages of each ring where a line says them, whether no line with words came yet, and the verdict so far.
#[derive(Drop)]
pub(crate) struct Reading {
    /// The verdict on the lines so far.
    pub(crate) watch: Watch,
    /// The pages that a line said.
    pub(crate) ring: Option<u32>,
    /// No line with words came yet.
    pub(crate) first: bool,
}
