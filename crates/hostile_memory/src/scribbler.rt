//! A hand that writes to a channel's words.
ghost use Rattle.std.specs.Prelude.{◌≡◌, ◌+◌, ◌*◌};
ghost use Rattle.std.specs.Arc.{arc_value};
ghost use Rattle.ring_machine.specs.Places.{IsPlaceOf, words_of};

use crate::rule::{OpenRule, OpenView, Scribbling};
use atomic_table::{Seat, Table};
use ring_core::{Place, place_index};
use std::alloc::Global;
use std::sync::Arc;

/// A hand that writes to any word of a channel, and reads any, at any moment, from a thread of its own.
#[derive(Drop)]
pub struct Scribbler {
    pub(crate) board: Arc<Table<(), OpenView, (), OpenRule, Global>>,
    pub(crate) seat: Seat<(), OpenView>,
    pub(crate) cells: u32,
    pub(crate) pages: u32,
    ghost seated: { seat.table_id ≡ (arc_value board).shared.table_id },
    ghost sized: { (arc_value board).shared.table_id.words ≡ words_of cells + 512 * pages },
}

impl Scribbler {
    /// One store. A store to a signal wakes an end that sleeps on it.
    pub fn put(&mut self, place: Place, v: u64)
        requires place { IsPlaceOf self.old.cells self.old.pages place }
        ensures { (self.new.cells ≡ self.old.cells) × (self.new.pages ≡ self.old.pages) }
    {
        let word = place_index(self.cells, place);
        let board = &self.board.shared;
        board.store::<Scribbling>(&mut self.seat, word, v);
        if let Place::Signal(_) = place {
            board.wake_one(word);
        }
    }

    /// One load.
    pub fn look(&mut self, place: Place) -> u64
        requires place { IsPlaceOf self.old.cells self.old.pages place }
        ensures { (self.new.cells ≡ self.old.cells) × (self.new.pages ≡ self.old.pages) }
    {
        let word = place_index(self.cells, place);
        let board = &self.board.shared;
        board.load::<Scribbling>(&mut self.seat, word)
    }
}
