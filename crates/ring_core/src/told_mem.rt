//! A memory that a contract can tell: its words, and the changes that a peer makes, each just before a step.
ghost use Rattle.std.specs.Prelude.{◌≡◌, ℕ, ◌+◌, ◌/◌, ◌%◌, ◌^◌, ◌≤◌, ◌*◌, [], drop, slice_set, slice_index, IfOk, length, replicate};
ghost use Rattle.ring_machine.specs.Places.{IsRingSize, IsPlaceOf, index_of, words_of};
ghost use Rattle.ring_core.specs.Told.{changed, later, counted, opening_with, IsScript, tells_memory};

use crate::seat::Seatlike;
use crate::words::{act, look_at, put_at};
use ring_machine::{EndCore, Place, Ring, place_index};
use std::alloc::{AllocError, Global};
use std::marker::Model;

/// A change of one word, due just before the named step, counted from 1.
#[derive(Clone, Copy)]
pub struct Change {
    /// The step before which it is made.
    pub step: u64,
    /// The word that changes.
    pub place: Place,
    /// Its new value.
    pub value: u64,
}

/// All words of a channel, with a list of changes that a peer makes.
#[derive(Drop)]
pub struct ToldMem {
    words: Vec<u64>,
    steps: u64,
    changes: Vec<Change>,
    at: usize,
    cells: u32,
    pages: u32,
}

// Makes the changes that are due at step n, and says where the later ones begin.
fn make_changes(
    cells: u32,
    n: u64,
    words: &mut Vec<u64>,
    changes: &Vec<Change>,
    from: usize,
) -> usize
    ensures words { words.new.items ≡ changed cells n (drop from changes.now.items) words.old.items }
    ensures len { length words.new.items ≡ length words.old.items }
    ensures later { drop result changes.now.items ≡ later n (drop from changes.now.items) }
{
    let mut at = from;
    while at < changes.len() {
        let change = changes[at];
        if change.step > n {
            break;
        }
        put_at(words, place_index(cells, change.place), change.value);
        at += 1;
    }
    at
}

/// The words of a new channel whose rings have `cells` cells, and which has so many data pages: all are 0, but that mask and feature are 1 in both rings.
pub fn opening_words(alloc: Global, cells: u32, pages: u32) -> Result<Vec<u64>, AllocError>
    ensures { IfOk result (λ ws. ws.items ≡ opening_with cells pages) }
{
    let len = cells as usize + cells as usize + 14 + 512 * pages as usize;
    let mut words = Vec::from_elem(alloc, 0, len)?;
    put_at(
        &mut words,
        place_index(cells, Place::Mask(Ring::ToGuest)),
        1,
    );
    put_at(
        &mut words,
        place_index(cells, Place::Feature(Ring::ToGuest)),
        1,
    );
    put_at(&mut words, place_index(cells, Place::Mask(Ring::ToHost)), 1);
    put_at(
        &mut words,
        place_index(cells, Place::Feature(Ring::ToHost)),
        1,
    );
    Ok(words)
}

impl Model for ToldMem {
    ghost use Rattle.std.specs.Prelude.{◌≡◌, ◌+◌, ◌*◌, drop, length};
    ghost use Rattle.ring_machine.specs.Places.{words_of};
    ghost use Rattle.ring_core.specs.Told.{Held};

    ghost Value = { Held };

    ghost view = { λ s. record { cells = s.cells; pages = s.pages; memory = record { words = s.words.items; steps = s.steps; due = drop s.at s.changes.items } } };

    ghost invariant = { λ s. length s.words.items ≡ words_of s.cells + 512 * s.pages };
}

impl ToldMem {
    /// The words of a new channel whose rings have `d` bytes of data, and which has so many data pages, at most 128; and these changes.
    pub fn make(
        alloc: Global,
        d: u32,
        changes: Vec<Change>,
        pages: u32,
    ) -> Result<ToldMem, AllocError>
        requires size { IsRingSize d }
        requires pages { pages ≤ 128 }
        requires script { IsScript (d / 8) pages changes.items }
        ensures { IfOk result (λ s. s ≡ record { cells = d / 8; pages = pages; memory = record { words = opening_with (d / 8) pages; steps = 0; due = changes.items } }) }
    {
        let cells = d / 8;
        Ok(ToldMem {
            words: opening_words(alloc, cells, pages)?,
            steps: 0,
            changes,
            at: 0,
            cells,
            pages,
        })
    }

    /// Changes a word, and takes no step.
    pub fn put(&mut self, place: Place, v: u64)
        requires { IsPlaceOf self.old.cells self.old.pages place }
        ensures words { self.new.memory.words ≡ slice_set self.old.memory.words (index_of self.old.cells place) v }
        ensures rest { (self.new.cells ≡ self.old.cells) × (self.new.pages ≡ self.old.pages) × (self.new.memory.steps ≡ self.old.memory.steps) × (self.new.memory.due ≡ self.old.memory.due) }
    {
        put_at(&mut self.words, place_index(self.cells, place), v);
    }

    /// Looks at a word, and takes no step.
    pub fn look(&self, place: Place) -> u64
        requires { IsPlaceOf self.now.cells self.now.pages place }
        ensures { result ≡ slice_index self.now.memory.words (index_of self.now.cells place) }
    {
        look_at(&self.words, place_index(self.cells, place))
    }

    /// How many steps were made.
    pub fn steps(&self) -> u64
        ensures { result ≡ self.now.memory.steps }
    {
        self.steps
    }
}

impl Seatlike for ToldMem {
    ghost use Rattle.std.specs.Prelude.{◌≡◌, None, refl};
    ghost use Rattle.std.proofs.Common.{◌∙◌};
    ghost use Rattle.ring_core.specs.Told.{tells_memory};

    ghost cells = { λ s. s.cells };

    ghost pages = { λ s. s.pages };

    ghost tale = { λ s. tells_memory s.memory };

    ghost told = { λ _. None };

    ghost same = { λ s t. t.pages ≡ s.pages };

    ghost same_refl = { λ _. refl };

    ghost same_trans = { λ _ _ _ p q. q ∙ p };

    ghost same_pages = { λ _ _ p. p };

    #[inline(always)]
    fn perform(&mut self, core: &EndCore, packet: &[u64]) -> u64 {
        let cells = core.machine.cells;
        self.steps = self.steps.wrapping_add(1);
        self.at = make_changes(cells, self.steps, &mut self.words, &self.changes, self.at);
        match core.next(packet) {
            Some(op) => act(&mut self.words, cells, op),
            None => 0,
        }
    }
}
