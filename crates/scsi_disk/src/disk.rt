//! The disk as a machine of requests and replies.
ghost use Rattle.std.specs.Prelude.{◌≡◌, ℕ, ◌+◌, ◌<◌, ◌≤◌, ◌^◌, List, IfOk, All, None, Some, nat_lt, length, take};
ghost use Rattle.std.specs.List.{list_any, range_with_len};
ghost use Rattle.scsi_disk.specs.DiskModel.{new_disk, refusal_of, good_bytes, long_capacity, disk_reply, disk_after, most_back, IsSized};
ghost use Rattle.scsi_disk.specs.FiniteMap.{stands_for, made, distinct, is_among, with_written, written_after, kept_after};

use crate::chunk::first;
use crate::command::Command;
use crate::inquiry::inquiry;
use crate::refusal::Refusal;
use crate::store::Store;
use crate::{Chunk, DiskReply, DiskRequest};
use hist_lock::Machine;
use indexmap::IndexSet;
use std::alloc::{AllocError, Global};
use std::marker::Model;

/// Whether one of so many places from `lba` on is bad.
fn has_bad(bad: &IndexSet<u64>, lba: u64, count: u64) -> bool
    requires { lba + count < 2 ^ 64 }
    ensures { result ≡ list_any (is_among bad.now.keys) (range_with_len lba count) }
{
    for i in 0..count {
        if bad.contains(&(lba + i)) {
            return true;
        }
    }
    false
}

/// These places, each once.
fn distinct(alloc: Global, places: &[u64]) -> Result<IndexSet<u64>, AllocError>
    ensures { IfOk result (λ set. set.keys ≡ distinct places.now) }
{
    let mut set = IndexSet::with_capacity(alloc, places.len())?;
    for place in places {
        set.insert(*place)?;
    }
    Ok(set)
}

/// A disk of 1 to 2^40 blocks of 512 bytes, of which some may be bad. At most 65,536 of them can be written.
#[derive(Drop)]
pub struct Disk {
    store: Store,
    bad: IndexSet<u64>,
}

impl Model for Disk {
    ghost use Rattle.std.specs.Prelude.{◌<◌, ◌^◌};
    ghost use Rattle.scsi_disk.specs.FiniteMap.{Kept};

    ghost Value = { Kept };

    ghost view = { λ d. record { blocks = d.store.blocks; bad = d.bad.keys; written = d.store.written } };

    ghost invariant = { λ d. d.store.blocks < 2 ^ 64 };
}

impl Disk {
    /// A disk that is all zero, with these bad places. It takes the room of all the blocks that can be
    /// written now: 65,536, or as many as there are.
    pub fn make(alloc: Global, blocks: u64, bad: &[u64]) -> Result<Disk, AllocError>
        requires some { 1 ≤ blocks }
        requires few { blocks ≤ 2 ^ 40 }
        requires within { All (λ place. place < blocks) bad.now }
        ensures kept { IfOk result (λ d. d ≡ made blocks bad.now) }
        ensures model { IfOk result (λ d. stands_for d ≡ new_disk blocks bad.now) }
    {
        let places = distinct(alloc, bad)?;
        let store = Store::make(alloc, blocks)?;
        Ok(Disk { store, bad: places })
    }

    /// Why a command is refused, if it is: the first of these that applies.
    ///
    /// 1. A field isn't served: an inquiry for other data than the standard one, a service action
    ///    other than that for the capacity, more than 8 blocks, or a write with other data than 512
    ///    bytes for each block.
    /// 2. The blocks end past the disk.
    /// 3. A read touches a bad block.
    /// 4. After a write more than 65,536 blocks would have been written.
    #[tactic(auto, unfolding(crate::specs::DiskModel::refusal_of))]
    fn refusal(&self, command: &Command, out: &[u8]) -> Option<Refusal>
        ensures { result ≡ refusal_of (stands_for self.now) command.now out.now }
    {
        match command {
            Command::Inquiry {
                standard: false,
                ..
            }
            | Command::LongCapacity { built: false, .. } => Some(Refusal::InvalidField),
            Command::Read { lba, count } => self.read_refusal(*lba, *count),
            Command::Write { lba, count } => self.write_refusal(*lba, *count, out.len() as u64),
            _ => None,
        }
    }

    // A read of more than 8 blocks is an invalid field, one that ends past the disk is out of range, and one that meets a bad
    // block can't be recovered, in this order.
    #[tactic(auto, unfolding(crate::specs::DiskModel::refusal_of))]
    fn read_refusal(&self, lba: u64, count: u64) -> Option<Refusal>
        ensures { (out : List ℕ)
            → result ≡ refusal_of (stands_for self.now) (Command.Read lba count) out }
    {
        if count > 8 {
            Some(Refusal::InvalidField)
        } else if self.ends_past(lba, count) {
            Some(Refusal::OutOfRange)
        } else if has_bad(&self.bad, lba, count) {
            Some(Refusal::UnrecoveredRead)
        } else {
            None
        }
    }

    // A write of more than 8 blocks, or whose data isn't as long as its blocks, is an invalid field, one that ends past the disk
    // is out of range, and for one after which too many blocks would have been written there is no space, in this order.
    #[tactic(auto, unfolding(crate::specs::DiskModel::refusal_of))]
    fn write_refusal(&self, lba: u64, count: u64, len: u64) -> Option<Refusal>
        ensures { (out : List ℕ) → length out ≡ len
            → result ≡ refusal_of (stands_for self.now) (Command.Write lba count) out }
    {
        if count > 8 || len != 512 * count {
            Some(Refusal::InvalidField)
        } else if self.ends_past(lba, count) {
            Some(Refusal::OutOfRange)
        } else if self.store.overfills(lba, count) {
            Some(Refusal::SpaceExhausted)
        } else {
            None
        }
    }

    /// Whether so many blocks from `lba` on end past the disk. No sum is made, so none can wrap.
    fn ends_past(&self, lba: u64, count: u64) -> bool
        ensures { result ≡ nat_lt self.now.blocks (lba + count) }
    {
        let blocks = self.store.blocks();
        count > blocks || lba > blocks - count
    }

    /// The last place, or the greatest number where it is greater, and the size of a block.
    #[tactic(auto, unfolding(crate::specs::DiskModel::good_bytes))]
    fn capacity(&self) -> Chunk
        ensures value { result ≡ good_bytes (stands_for self.now) Command.ReadCapacity }
        ensures len { length result ≡ 8 }
    {
        let last = self.store.blocks().saturating_sub(1).min(0xffff_ffff) as u32;
        let mut chunk = Chunk::of(&last.to_be_bytes());
        chunk.extend(&512u32.to_be_bytes());
        chunk
    }

    /// The last place in 8 bytes and the size of a block in 4, and zeros behind them: 32 bytes, or as
    /// many of them as may come.
    fn long_capacity(&self, allocation: u64) -> Chunk
        ensures value { result ≡ take allocation (long_capacity (stands_for self.now)) }
        ensures most { length result ≤ 32 }
    {
        let last = self.store.blocks().saturating_sub(1);
        let mut all = Chunk::of(&last.to_be_bytes());
        all.extend(&512u32.to_be_bytes());
        all.extend(&[0; 20]);
        first(all.bytes(), allocation)
    }

    /// Does a command that isn't refused, and gives what comes back.
    #[tactic(auto, unfolding(crate::specs::DiskModel::good_bytes))]
    fn serve(&mut self, command: Command, out: &[u8]) -> Chunk
        requires { refusal_of (stands_for self.old) command out.now ≡ None }
        ensures back { result ≡ good_bytes (stands_for self.old) command }
        ensures most { length result ≤ most_back (Some command) }
        ensures kept { self.new
            ≡ with_written self.old (written_after self.old (Some command) out.now) }
    {
        // Each arm returns by itself, so that no chunk is moved through the value of the `match`.
        match command {
            Command::TestUnitReady | Command::SynchronizeCache => {
                return Chunk::empty();
            }
            Command::Inquiry {
                standard: _,
                allocation,
            } => {
                return inquiry(allocation);
            }
            Command::ReadCapacity => {
                return self.capacity();
            }
            Command::Read { lba, count } => {
                return self.store.read(lba, count);
            }
            Command::Write { lba, count } => {
                self.store.write(lba, count, out);
                return Chunk::empty();
            }
            Command::LongCapacity {
                built: _,
                allocation,
            } => {
                return self.long_capacity(allocation);
            }
        }
    }
}

impl Machine for Disk {
    ghost use Rattle.std.specs.Prelude.{◌≡◌, refl};
    ghost use Rattle.scsi_disk.specs.DiskModel.{disk_reply, disk_after, IsSized};
    ghost use Rattle.scsi_disk.specs.FiniteMap.{stands_for, unwritten, kept_after};

    type Request = DiskRequest;

    type Reply = DiskReply;

    ghost first = { unwritten };

    ghost after = { kept_after };

    ghost reply_to = { λ s q. disk_reply (stands_for s) q };

    ghost fits = { IsSized };

    /// Serves one request. It takes no memory.
    fn apply(&mut self, request: &DiskRequest) -> DiskReply
        ensures reply { result ≡ disk_reply (stands_for self.old) request.now }
        ensures fits { IsSized request.now result }
        ensures after { self.new ≡ kept_after self.old request.now }
        ensures model { stands_for self.new ≡ disk_after (stands_for self.old) request.now }
    {
        let Some(command) = Command::of(&request.cdb) else {
            return Refusal::InvalidCode.check();
        };
        let out = request.out.bytes();
        if let Some(refusal) = self.refusal(&command, out) {
            return refusal.check();
        }
        DiskReply::good(self.serve(command, out))
    }

    fn copy(reply: &DiskReply) -> DiskReply {
        reply.again()
    }

    ghost keeps_setup = { λ s q. refl };
}
