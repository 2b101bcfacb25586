//! All words of a channel in memory of its own.
ghost use Rattle.std.specs.Prelude.{◌≡◌, ℕ, ◌+◌, ◌/◌, ◌≤◌, [], slice_set, slice_index, IfOk};
ghost use Rattle.ring_machine.specs.Places.{IsRingSize, IsPlaceOf, index_of};
ghost use Rattle.ring_core.specs.Told.{opening_with, tells_memory};

use crate::seat::Seatlike;
use crate::told_mem::opening_words;
use crate::words::{act, look_at, put_at};
use ring_machine::{EndCore, Place, place_index};
use std::alloc::{AllocError, Global};
use std::marker::Model;

/// All words of a channel, that nobody else changes.
#[derive(Drop)]
pub struct SoloMem {
    words: Vec<u64>,
    steps: u64,
    cells: u32,
    pages: u32,
}

impl Model for SoloMem {
    ghost use Rattle.std.specs.Prelude.{◌≡◌, ◌+◌, ◌*◌, [], length};
    ghost use Rattle.ring_machine.specs.Places.{words_of};
    ghost use Rattle.ring_core.specs.Told.{Held};

    ghost Value = { Held };

    ghost view = { λ s. record { cells = s.cells; pages = s.pages; memory = record { words = s.words.items; steps = s.steps; due = [] } } };

    ghost invariant = { λ s. length s.words.items ≡ words_of s.cells + 512 * s.pages };
}

impl SoloMem {
    /// The words of a new channel whose rings have `d` bytes of data, and which has so many data pages, at most 128.
    pub fn make(alloc: Global, d: u32, pages: u32) -> Result<SoloMem, AllocError>
        requires size { IsRingSize d }
        requires pages { pages ≤ 128 }
        ensures { IfOk result (λ s. s ≡ record { cells = d / 8; pages = pages; memory = record { words = opening_with (d / 8) pages; steps = 0; due = [] } }) }
    {
        let cells = d / 8;
        Ok(SoloMem {
            words: opening_words(alloc, cells, pages)?,
            steps: 0,
            cells,
            pages,
        })
    }

    /// Changes a word, and takes no step.
    pub fn put(&mut self, place: Place, v: u64)
        requires { IsPlaceOf self.old.cells self.old.pages place }
        ensures words { self.new.memory.words ≡ slice_set self.old.memory.words (index_of self.old.cells place) v }
        ensures rest { (self.new.cells ≡ self.old.cells) × (self.new.pages ≡ self.old.pages) × (self.new.memory.steps ≡ self.old.memory.steps) × (self.new.memory.due ≡ self.old.memory.due) }
    {
        put_at(&mut self.words, place_index(self.cells, place), v);
    }

    /// Looks at a word, and takes no step.
    pub fn look(&self, place: Place) -> u64
        requires { IsPlaceOf self.now.cells self.now.pages place }
        ensures { result ≡ slice_index self.now.memory.words (index_of self.now.cells place) }
    {
        look_at(&self.words, place_index(self.cells, place))
    }
}

impl Seatlike for SoloMem {
    ghost use Rattle.std.specs.Prelude.{◌≡◌, None, refl};
    ghost use Rattle.std.proofs.Common.{◌∙◌};
    ghost use Rattle.ring_core.specs.Told.{tells_memory};

    ghost cells = { λ s. s.cells };

    ghost pages = { λ s. s.pages };

    ghost tale = { λ s. tells_memory s.memory };

    ghost told = { λ _. None };

    ghost same = { λ s t. t.pages ≡ s.pages };

    ghost same_refl = { λ _. refl };

    ghost same_trans = { λ _ _ _ p q. q ∙ p };

    ghost same_pages = { λ _ _ p. p };

    #[inline(always)]
    fn perform(&mut self, core: &EndCore, packet: &[u64]) -> u64 {
        self.steps = self.steps.wrapping_add(1);
        match core.next(packet) {
            Some(op) => act(&mut self.words, core.machine.cells, op),
            None => 0,
        }
    }
}
