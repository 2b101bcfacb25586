//! Rows of words in two vectors: the words of all of them, and where each one ends.
ghost use Rattle.std.specs.Prelude.{◌≡◌, ℕ, ◌+◌, ◌≤◌, ◌<◌, ◌-◌, ◌++◌, [], ◌∷◌, length, slice_get, slice_index_or, IfOk, OnOk, MatchOption, Some, vec_len, vec_capacity};
ghost use Rattle.ring_core.specs.Cut.{cut, Rises, start};

use crate::room::Room;
use std::alloc::{AllocError, Global};
use std::marker::Model;

// Adds a packet's words at the end, into room that is reserved.
#[inline(always)]
fn append(words: &mut Vec<u64>, packet: &[u64])
    requires { vec_len words.old + length packet.now ≤ vec_capacity words.old }
    ensures items { words.new.items ≡ words.old.items ++ packet.now }
    ensures room { vec_capacity words.old ≤ vec_capacity words.new }
{
    let Ok(()) = words.extend_from_slice(packet) else {
        unreachable!()
    };
}

// Where packet i begins: at the end of the one before it.
fn first(ends: &[usize], i: usize) -> usize
    requires { i ≤ length ends.now }
    ensures { result ≡ start 0 ends.now i }
{
    if i == 0 { 0 } else { ends[i - 1] }
}

// Where packet i begins and ends.
fn range_at(ends: &[usize], i: usize, last: usize) -> (usize, usize)
    requires rises { Rises 0 ends.now last }
    requires there { i < length ends.now }
    ensures from { result.0 ≡ start 0 ends.now i }
    ensures to { result.1 ≡ slice_index_or ends.now i 0 }
    ensures fits { (result.0 ≤ result.1) × (result.1 ≤ last) }
{
    (first(ends, i), ends[i])
}

// The words of packet i.
fn part<'a>(words: &'a [u64], ends: &[usize], i: usize) -> &'a [u64]
    requires rises { Rises 0 ends.now (length words.now) }
    requires there { i < length ends.now }
    ensures { slice_get (cut 0 ends.now words.now) i ≡ Some result.now }
{
    let (from, to) = range_at(ends, i, words.len());
    &words[from..to]
}

/// Rows of words, and the room that is reserved for more.
#[derive(Drop)]
pub(crate) struct Rows {
    words: Vec<u64>,
    ends: Vec<usize>,
}

impl Model for Rows {
    ghost use Rattle.ring_core.specs.Seen.{Rowed};

    ghost Value = { Rowed };

    ghost use Rattle.ring_core.specs.Cut.{held_in, IsCut};

    ghost view = { λ p. held_in p.words p.ends };

    ghost invariant = { λ p. IsCut p.words p.ends };
}

impl Rows {
    /// No rows, and no room.
    pub(crate) fn new(alloc: Global) -> Rows
        ensures { result.list ≡ [] }
    {
        Rows {
            words: Vec::new(alloc),
            ends: Vec::new(alloc),
        }
    }

    /// Makes room for so many more rows, of so many words in all. Room never shrinks.
    pub(crate) fn reserve(&mut self, room: Room) -> Result<(), AllocError>
        ensures list { self.new.list ≡ self.old.list }
        ensures room { OnOk result ((room.packets ≤ self.new.room.packets) × (room.words ≤ self.new.room.words)) }
        ensures kept { (self.old.room.packets ≤ self.new.room.packets) × (self.old.room.words ≤ self.new.room.words) }
    {
        self.words.reserve(room.words as usize)?;
        self.ends.reserve(room.packets as usize)
    }

    /// Gives the room that is left back to the allocator, which has to give room for a copy first.
    pub(crate) fn trim(&mut self) -> Result<(), AllocError>
        ensures { self.new.list ≡ self.old.list }
    {
        // A copy frees the whole of the old list, so that the next channel's finds its place there. A list that shrinks in place leaves a hole that is a
        // little too small for the next one.
        self.words = self.words.to_vec(*self.words.allocator())?;
        self.ends = self.ends.to_vec(*self.ends.allocator())?;
        Ok(())
    }

    /// The room that is left.
    pub(crate) fn room(&self) -> Room
        ensures { result ≡ self.now.room }
    {
        Room {
            packets: (self.ends.capacity() - self.ends.len()) as u64,
            words: (self.words.capacity() - self.words.len()) as u64,
        }
    }

    /// How many rows there are.
    pub(crate) fn len(&self) -> usize
        ensures { result ≡ length self.now.list }
    {
        self.ends.len()
    }

    /// Adds a row at the end, into room that is reserved.
    #[inline]
    pub(crate) fn push(&mut self, packet: &[u64])
        requires packets { 0 < self.old.room.packets }
        requires words { length packet.now ≤ self.old.room.words }
        ensures list { self.new.list ≡ self.old.list ++ packet.now ∷ [] }
        ensures room { (self.old.room.packets ≤ self.new.room.packets + 1) × (self.old.room.words ≤ self.new.room.words + length packet.now) }
    {
        append(&mut self.words, packet);
        self.ends.push_reserved(self.words.len());
    }

    /// The row at this place, or none exactly past the end.
    pub(crate) fn get(&self, i: usize) -> Option<&[u64]>
        ensures { MatchOption result (length self.now.list ≤ i) (λ p. slice_get self.now.list i ≡ Some p.now) }
    {
        if i >= self.ends.len() {
            return None;
        }
        Some(part(self.words.as_slice(), self.ends.as_slice(), i))
    }

    // The row that came last.
    pub(crate) fn last(&self) -> &[u64]
        ensures { 0 < length self.now.list → slice_get self.now.list (length self.now.list - 1) ≡ Some result.now }
    {
        let n = self.len();
        if n == 0 {
            return &[];
        }
        match self.get(n - 1) {
            Some(words) => words,
            None => &[],
        }
    }
}
