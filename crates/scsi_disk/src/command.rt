//! The commands that a disk serves.
ghost use Rattle.std.specs.Prelude.{◌≡◌};
ghost use Rattle.scsi_disk.specs.Commands.{command_of};

use crate::big_endian::number;

/// A command, read from its descriptor block (the codes of Linux `include/scsi/scsi_proto.h`).
#[derive(Clone, Copy, Debug, PartialEq, Eq)]
pub enum Command {
    /// Code 00: is the disk there?
    TestUnitReady,
    /// Code 12: what is the disk?
    Inquiry {
        /// Neither vital product data nor a page code is asked for.
        standard: bool,
        /// How many bytes may come back at most.
        allocation: u64,
    },
    /// Code 25: how many blocks, of which size?
    ReadCapacity,
    /// Codes 28 and 88: gives blocks.
    Read {
        /// The first block.
        lba: u64,
        /// How many blocks.
        count: u64,
    },
    /// Codes 2A and 8A: replaces blocks.
    Write {
        /// The first block.
        lba: u64,
        /// How many blocks.
        count: u64,
    },
    /// Code 35: nothing is cached, so there is nothing to do.
    SynchronizeCache,
    /// Code 9E: how many blocks, in 64 bits, and of which size?
    LongCapacity {
        /// Its service action is 10, which is READ CAPACITY (16).
        built: bool,
        /// How many bytes may come back at most.
        allocation: u64,
    },
}

impl Command {
    /// The command of a descriptor block, or `None` where it isn't built. Numbers are big-endian.
    #[tactic(auto, unfolding(crate::specs::Commands::command_of))]
    pub fn of(cdb: &[u8; 16]) -> Option<Command>
        ensures { result ≡ command_of cdb.now }
    {
        match cdb[0] {
            0x00 => Some(Command::TestUnitReady),
            0x12 => Some(Command::Inquiry {
                standard: cdb[1] % 2 == 0 && cdb[2] == 0,
                allocation: number(&cdb[3..5]),
            }),
            0x25 => Some(Command::ReadCapacity),
            0x28 => Some(Command::Read {
                lba: number(&cdb[2..6]),
                count: number(&cdb[7..9]),
            }),
            0x2a => Some(Command::Write {
                lba: number(&cdb[2..6]),
                count: number(&cdb[7..9]),
            }),
            0x35 => Some(Command::SynchronizeCache),
            0x88 => Some(Command::Read {
                lba: number(&cdb[2..10]),
                count: number(&cdb[10..14]),
            }),
            0x8a => Some(Command::Write {
                lba: number(&cdb[2..10]),
                count: number(&cdb[10..14]),
            }),
            0x9e => Some(Command::LongCapacity {
                built: cdb[1] % 32 == 0x10,
                allocation: number(&cdb[10..14]),
            }),
            _ => None,
        }
    }
}
