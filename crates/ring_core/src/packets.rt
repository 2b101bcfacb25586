//! A list of packets, each with the page words that went along.
ghost use Rattle.std.specs.Prelude.{◌≡◌, ℕ, ◌+◌, ◌≤◌, ◌<◌, ◌++◌, ◌-◌, [], ◌∷◌, length, slice_get, slice_index_or, true, false, cond, max, OnOk, MatchOption, Some};
ghost use Rattle.ring_core.specs.Seen.{Listed, room_in};

use crate::room::Room;
use crate::rows::Rows;
use std::alloc::{AllocError, Global};
use std::marker::Model;

/// A list of packets, and the room that is reserved for more. In a channel with data pages each packet has the page words that went along, none or some.
#[derive(Drop)]
pub struct Packets {
    rows: Rows,
    lent: Rows,
    paged: bool,
    // In a channel with data pages, for how many packets more room was made: their ids have room too.
    places: u64,
}

impl Model for Packets {
    ghost use Rattle.std.specs.Prelude.{◌≡◌, false, []};
    ghost use Rattle.ring_core.specs.Seen.{Listed, listed_in};

    ghost Value = { Listed };

    ghost view = { λ p. listed_in p.paged p.places p.rows p.lent };

    ghost invariant = { λ p. p.paged ≡ false → p.lent.list ≡ [] };
}

impl Packets {
    /// No packets, and no room. `paged` says whether their page words are kept too.
    pub fn new(alloc: Global, paged: bool) -> Packets
        ensures list { (result.list ≡ []) × (result.lent ≡ []) }
        ensures paged { (result.paged ≡ paged) × (result.places ≡ 0) }
    {
        Packets {
            rows: Rows::new(alloc),
            lent: Rows::new(alloc),
            paged,
            places: 0,
        }
    }

    /// Makes room for so many more packets, of so many words in all, page words among them. Room never shrinks.
    pub fn reserve(&mut self, room: Room) -> Result<(), AllocError>
        ensures list { (self.new.list ≡ self.old.list) × (self.new.lent ≡ self.old.lent) × (self.new.paged ≡ self.old.paged) }
        ensures room { OnOk result ((room.packets ≤ self.new.room.packets) × (room.words ≤ self.new.room.words)) }
        ensures kept { (self.old.room.packets ≤ self.new.room.packets) × (self.old.room.words ≤ self.new.room.words) }
        ensures places { (self.old.lent_room.packets ≤ self.new.lent_room.packets) × (self.new.places ≤ max self.old.places room.packets) }
    {
        self.rows.reserve(room)?;
        if self.paged {
            self.lent.reserve(room)?;
        }
        self.places = self.places.max(room.packets);
        Ok(())
    }

    // For how many packets more room was made.
    pub(crate) fn places(&self) -> u64
        ensures { result ≡ self.now.places }
    {
        self.places
    }

    /// Gives the room that is left back to the allocator, which has to give room for a copy first.
    pub fn trim(&mut self) -> Result<(), AllocError>
        ensures { (self.new.list ≡ self.old.list) × (self.new.lent ≡ self.old.lent) × (self.new.paged ≡ self.old.paged) }
    {
        self.rows.trim()?;
        self.lent.trim()
    }

    // The room is for no more packets than room was made for. The call does nothing: its contract is a law.
    pub(crate) fn has_places(&self)
        ensures { self.now.paged ≡ true → self.now.room.packets ≤ self.now.places }
    {
        // For the proof: what a value keeps is known where the value is read.
        let _places = self.places;
    }

    /// The room that is left: page words count, and each packet has a place for them. In a channel with data pages it is for no more packets than room was made for.
    pub fn room(&self) -> Room
        ensures { result ≡ self.now.room }
    {
        let rows = self.rows.room();
        if !self.paged {
            return rows;
        }
        let lent = self.lent.room();
        Room {
            packets: rows.packets.min(lent.packets).min(self.places),
            words: rows.words.min(lent.words),
        }
    }

    /// How many packets there are.
    pub fn len(&self) -> usize
        ensures { result ≡ length self.now.list }
    {
        self.rows.len()
    }

    /// Adds a packet without page words at the end, into room that is reserved.
    pub fn push(&mut self, packet: &[u64])
        requires packets { 0 < self.old.room.packets }
        requires words { length packet.now ≤ self.old.room.words }
        ensures list { self.new.list ≡ self.old.list ++ packet.now ∷ [] }
        ensures lent { self.new.lent ≡ cond self.old.paged (self.old.lent ++ [] ∷ []) self.old.lent }
        ensures room { (self.old.room.packets ≤ self.new.room.packets + 1) × (self.old.room.words ≤ self.new.room.words + length packet.now) }
    {
        self.rows.push(packet);
        if self.paged {
            self.places -= 1;
            self.lent.push(&[]);
        }
    }

    // Adds a packet with the page words that go along.
    pub(crate) fn push_with(&mut self, packet: &[u64], words: &[u64])
        requires paged { self.old.paged ≡ true }
        requires packets { 0 < self.old.room.packets }
        requires words { length packet.now + length words.now ≤ self.old.room.words }
        ensures list { self.new.list ≡ self.old.list ++ packet.now ∷ [] }
        ensures lent { self.new.lent ≡ self.old.lent ++ words.now ∷ [] }
        ensures paged { (self.new.paged ≡ self.old.paged) × (self.new.places + 1 ≡ self.old.places) }
        ensures room { (self.old.room.packets ≤ self.new.room.packets + 1) × (self.old.room.words ≤ self.new.room.words + (length packet.now + length words.now)) }
    {
        self.places -= 1;
        self.rows.push(packet);
        self.lent.push(words);
    }

    /// The packet at this place, or none exactly past the end.
    pub fn get(&self, i: usize) -> Option<&[u64]>
        ensures { MatchOption result (length self.now.list ≤ i) (λ p. slice_get self.now.list i ≡ Some p.now) }
    {
        self.rows.get(i)
    }

    /// The page words that went along with the packet at this place, or none exactly past the end. Where they aren't loaded yet there are none.
    pub fn lent(&self, i: usize) -> Option<&[u64]>
        ensures { MatchOption result (length self.now.list ≤ i) (λ w. (i < length self.now.list) × (w.now ≡ slice_index_or self.now.lent i [])) }
    {
        if i >= self.rows.len() {
            return None;
        }
        match self.lent.get(i) {
            Some(words) => Some(words),
            None => Some(&[]),
        }
    }

    // Adds a packet, in a channel without data pages.
    #[inline(always)]
    pub(crate) fn push_packet(&mut self, packet: &[u64])
        requires packets { 0 < self.old.room.packets }
        requires words { length packet.now ≤ self.old.room.words }
        ensures list { self.new.list ≡ self.old.list ++ packet.now ∷ [] }
        ensures lent { (self.new.lent ≡ self.old.lent) × (self.new.paged ≡ self.old.paged) }
        ensures room { (self.old.room.packets ≤ self.new.room.packets + 1) × (self.old.room.words ≤ self.new.room.words + length packet.now) }
    {
        self.rows.push(packet);
    }

    // Adds a packet whose page words come later.
    pub(crate) fn push_waiting(&mut self, packet: &[u64])
        requires paged { self.old.paged ≡ true }
        requires packets { 0 < self.old.room.packets }
        requires words { length packet.now ≤ self.old.room.words }
        ensures list { self.new.list ≡ self.old.list ++ packet.now ∷ [] }
        ensures lent { self.new.lent ≡ self.old.lent }
        ensures paged { (self.new.paged ≡ self.old.paged) × (self.new.places + 1 ≡ self.old.places) }
        ensures place { 0 < self.new.lent_room.packets }
        ensures room { (self.old.room.packets ≤ self.new.room.packets + 1) × (self.old.room.words ≤ self.new.room.words + length packet.now) }
    {
        self.places -= 1;
        self.rows.push(packet);
    }

    // Adds the page words of the first packet that has none yet.
    pub(crate) fn push_lent(&mut self, words: &[u64])
        requires paged { self.old.paged ≡ true }
        requires packets { 0 < self.old.lent_room.packets }
        requires words { length words.now ≤ self.old.room.words }
        ensures list { (self.new.list ≡ self.old.list) × (self.new.paged ≡ self.old.paged) × (self.new.places ≡ self.old.places) }
        ensures lent { self.new.lent ≡ self.old.lent ++ words.now ∷ [] }
        ensures room { (self.old.room.packets ≤ self.new.room.packets + 1) × (self.old.room.words ≤ self.new.room.words + length words.now) }
    {
        self.lent.push(words);
    }

    // The packet that came last.
    pub(crate) fn last(&self) -> &[u64]
        ensures { 0 < length self.now.list → slice_get self.now.list (length self.now.list - 1) ≡ Some result.now }
    {
        self.rows.last()
    }

    // The page words that came last.
    pub(crate) fn last_lent(&self) -> &[u64]
        ensures { 0 < length self.now.lent → slice_get self.now.lent (length self.now.lent - 1) ≡ Some result.now }
    {
        self.lent.last()
    }
}
