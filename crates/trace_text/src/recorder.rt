//! A seat that keeps the text of its steps.
use ring_core::{Seatlike, Side};
use std::marker::Model;

/// A seat of an end, which keeps the text of each step in bytes that were reserved. Contracts see the seat, whose end it is, the text, the bytes that it may have,
/// and whether a line didn't fit.
#[derive(Drop)]
pub struct Recorder<S: Seatlike> {
    pub(crate) seat: S,
    pub(crate) side: Side,
    pub(crate) text: Vec<u8>,
    pub(crate) size: usize,
    pub(crate) full: bool,
}

impl<S: Seatlike> Model for Recorder<S> {
    ghost use Rattle.std.specs.Prelude.{◌≤◌, length, vec_capacity};
    ghost use Rattle.trace_text.specs.Recording.{Recorded};

    ghost Value = { Recorded S };

    ghost view = { λ r. record { seat = r.seat; side = r.side; text = r.text.items; size = r.size; full = r.full } };

    ghost invariant = { λ r. (r.size ≤ vec_capacity r.text) × (length r.text.items ≤ r.size) };
}
