//! The written blocks of a disk.
ghost use Rattle.std.specs.Prelude.{◌≡◌, ◌+◌, ◌*◌, ◌^◌, ◌<◌, ◌≤◌, ◌++◌, IfOk, [], nat_eq, nat_lt, length};
ghost use Rattle.std.specs.List.{flat_map, range_with_len};
ghost use Rattle.std.specs.Map.{keys_of};
ghost use Rattle.indexmap.specs.IndexMap.{insert_entry};
ghost use Rattle.scsi_disk.specs.Stored.{Stored};
ghost use Rattle.scsi_disk.specs.DiskModel.{first_written, most_written};
ghost use Rattle.scsi_disk.specs.FiniteMap.{block_in, with_blocks};

use crate::Chunk;
use indexmap::IndexMap;
use std::alloc::{AllocError, Global};
use std::marker::Model;

/// How many blocks of a disk can be written.
const MOST_WRITTEN: u64 = 65_536;

/// Blocks of 512 bytes. Those that were written are kept, with room for as many as can be written.
#[derive(Drop)]
pub(crate) struct Store {
    blocks: u64,
    written: IndexMap<u64, [u8; 512]>,
}

impl Model for Store {
    ghost use Rattle.scsi_disk.specs.Stored.{Stored};

    ghost Value = { Stored };

    ghost use Rattle.scsi_disk.specs.Room.{HasRoom};

    ghost view = { λ s. record { blocks = s.blocks; written = s.written.entries } };

    ghost invariant = { λ s. HasRoom s.blocks s.written };
}

impl Store {
    /// Nothing written, with room for as many blocks as can be written.
    pub(crate) fn make(alloc: Global, blocks: u64) -> Result<Store, AllocError>
        ensures { IfOk result (λ s. s ≡ record { blocks = blocks; written = [] }) }
    {
        let room = blocks.min(MOST_WRITTEN) as usize;
        let written = IndexMap::with_capacity(alloc, room)?;
        Ok(Store { blocks, written })
    }

    /// How many blocks.
    pub(crate) fn blocks(&self) -> u64
        ensures { result ≡ self.now.blocks }
    {
        self.blocks
    }

    /// Whether more blocks would have been written than can be, after so many from `lba` on. A place
    /// is looked up only where that could be.
    pub(crate) fn overfills(&self, lba: u64, count: u64) -> bool
        requires few { count ≤ 8 }
        requires fits { lba + count < 2 ^ 64 }
        ensures { result
            ≡ nat_lt most_written (length (keys_of self.now.written) + length (first_written (keys_of self.now.written) lba count)) }
    {
        let len = self.written.len() as u64;
        len + count > MOST_WRITTEN && len + self.fresh(lba, count) > MOST_WRITTEN
    }

    /// How many of so many places from `lba` on weren't written before.
    fn fresh(&self, lba: u64, count: u64) -> u64
        requires { lba + count < 2 ^ 64 }
        ensures value { result ≡ length (first_written (keys_of self.now.written) lba count) }
        ensures few { result ≤ count }
    {
        let mut fresh = 0;
        for i in 0..count {
            if !self.written.contains_key(&(lba + i)) {
                fresh += 1;
            }
        }
        fresh
    }

    /// So many blocks from `lba` on.
    pub(crate) fn read(&self, lba: u64, count: u64) -> Chunk
        requires few { count ≤ 8 }
        requires fits { lba + count < 2 ^ 64 }
        ensures all { result ≡ flat_map (block_in self.now.written) (range_with_len lba count) }
        ensures len { length result ≡ 512 * count }
    {
        let mut chunk = Chunk::empty();
        for i in 0..count {
            self.append_block(lba + i, &mut chunk);
        }
        chunk
    }

    /// Replaces so many blocks from `lba` on. It takes no memory.
    pub(crate) fn write(&mut self, lba: u64, count: u64, out: &[u8])
        requires len { length out.now ≡ 512 * count }
        requires within { lba + count ≤ self.old.blocks }
        requires fits { lba + count < 2 ^ 64 }
        requires few { length (with_blocks self.old.written lba count out.now) ≤ most_written }
        ensures blocks { self.new.blocks ≡ self.old.blocks }
        ensures written { self.new.written ≡ with_blocks self.old.written lba count out.now }
    {
        for i in 0..count {
            let at = 512 * i as usize;
            self.write_block(lba + i, &out[at..at + 512]);
        }
    }

    /// Puts the block at a place at the end of a chunk.
    fn append_block(&self, place: u64, chunk: &mut Chunk)
        requires { length chunk.old + 512 ≤ 4096 }
        ensures all { chunk.new ≡ chunk.old ++ block_in self.now.written place }
        ensures len { length chunk.new ≡ length chunk.old + 512 }
    {
        match self.written.get(&place) {
            Some(block) => chunk.extend(block),
            None => chunk.extend(&[0; 512]),
        }
    }

    /// Replaces the block at a place.
    fn write_block(&mut self, place: u64, block: &[u8])
        requires within { place < self.old.blocks }
        requires block { length block.now ≡ 512 }
        requires few { length (insert_entry nat_eq self.old.written place block.now) ≤ most_written }
        ensures blocks { self.new.blocks ≡ self.old.blocks }
        ensures written { self.new.written ≡ insert_entry nat_eq self.old.written place block.now }
    {
        if let Some(slot) = self.written.get_mut(&place) {
            slot.copy_from_slice(block);
            return;
        }
        let mut fresh = [0; 512];
        fresh.copy_from_slice(block);
        let Ok(_) = self.written.insert(place, fresh) else {
            unreachable!()
        };
    }
}
