//! What one line says by itself.
use trace_model::TraceWhat;

/// What a line says in a trace whose rings have so many pages, before it is held against the lines before it. A value out of range is none.
#[derive(Drop)]
pub enum Said {
    /// It has no words, or is a comment.
    Nothing,
    /// It says how many data pages each ring has.
    Ring(Option<u32>),
    /// It says a call or a step.
    Says(Option<TraceWhat>),
}
