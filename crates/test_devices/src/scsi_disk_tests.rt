//! A disk against the replies that a SCSI initiator wants.
ghost use Rattle.std.specs.Prelude.{◌≤◌, length};

use crate::check::check;
use hist_lock::Machine;
use scsi_disk::{Chunk, Disk, DiskReply, DiskRequest};
use std::process::Abort;
use std::test::Fail;

/// A command of at most 10 bytes, in 16.
fn narrow(cdb: [u8; 10]) -> [u8; 16] {
    let mut block = [0u8; 16];
    block[..10].copy_from_slice(&cdb);
    block
}

/// A command of 16 bytes: its code and its service action, its first block in bytes 2 to 9, and its count in bytes 10 to 13.
fn wide(code: u8, action: u8, lba: u64, count: u32) -> [u8; 16] {
    let mut block = [0u8; 16];
    block[0] = code;
    block[1] = action;
    block[2..10].copy_from_slice(&lba.to_be_bytes());
    block[10..14].copy_from_slice(&count.to_be_bytes());
    block
}

/// Serves a command of 16 bytes, and wants these bytes back.
fn gives(rt: &impl Abort, disk: &mut Disk, cdb: [u8; 16], out: &[u8], back: &[u8])
    requires { length out.now ≤ 4096 }
{
    let out = Chunk::of(out);
    match disk.apply(&DiskRequest { cdb, out }) {
        DiskReply::Good(chunk) => check(rt, chunk.bytes() == back),
        DiskReply::Check { .. } => panic!(rt; "refused {cdb:?}"),
    }
}

/// Serves a command of at most 10 bytes, and wants these bytes back.
fn good(rt: &impl Abort, disk: &mut Disk, cdb: [u8; 10], out: &[u8], back: &[u8])
    requires { length out.now ≤ 4096 }
{
    gives(rt, disk, narrow(cdb), out, back);
}

/// Serves a command of 16 bytes, and wants this check.
fn checks(rt: &impl Abort, disk: &mut Disk, cdb: [u8; 16], out: &[u8], want: (u8, u8, u8))
    requires { length out.now ≤ 4096 }
{
    let out = Chunk::of(out);
    let reply = disk.apply(&DiskRequest { cdb, out });
    match Disk::copy(&reply) {
        DiskReply::Good(_) => panic!(rt; "not refused {cdb:?}"),
        DiskReply::Check { key, asc, ascq } => check(rt, (key, asc, ascq) == want),
    }
}

/// An inquiry for so many bytes, big-endian, gives these.
fn inquires(rt: &impl Abort, disk: &mut Disk, count: u16, want: &[u8]) {
    let [high, low] = count.to_be_bytes();
    good(rt, disk, [0x12, 0, 0, high, low, 0, 0, 0, 0, 0], &[], want);
}

const INQUIRED: &[u8] = b"\0\0\x05\x02\x1f\0\0\0RATTLE  VMBUS DISK      1.0 ";

#[test]
fn answers_each_command(rt: HostRuntime) -> Result<(), Fail> {
    let mut disk = Disk::make(rt.alloc(), 64, &[])?;
    let d = &mut disk;
    good(&rt, d, [0; 10], &[], &[]);
    good(&rt, d, [0x35, 0, 0, 0, 0, 0, 0, 0, 0, 0], &[], &[]);
    // The last place is 63, and a block has 512 bytes.
    let capacity = [0, 0, 0, 0x3f, 0, 0, 2, 0];
    good(&rt, d, [0x25, 0, 0, 0, 0, 0, 0, 0, 0, 0], &[], &capacity);
    inquires(&rt, d, 36, INQUIRED);
    inquires(&rt, d, 5, &INQUIRED[..5]);
    inquires(&rt, d, 0, &[]);
    // There are 36.
    inquires(&rt, d, 256, INQUIRED);
    drop(disk);
    Ok(())
}

/// What a command gives: so many bytes of one value, or a check.
#[derive(Clone, Copy)]
enum Want {
    Back(u8, usize),
    Check(u8, u8, u8),
}

const DONE: Want = Want::Back(0, 0);

const ZEROS: Want = Want::Back(0, 512);

/// No such operation, a wrong field of the command, a place past the end, a block that can't be read, and no space.
const CODE: Want = Want::Check(5, 0x20, 0);

const FIELD: Want = Want::Check(5, 0x24, 0);

const RANGE: Want = Want::Check(5, 0x21, 0);

const MEDIUM: Want = Want::Check(3, 0x11, 0);

const SPACE: Want = Want::Check(7, 0x27, 7);

/// Serves a command of 16 bytes with so many bytes of one value as data, and wants this.
fn serves(rt: &impl Abort, disk: &mut Disk, cdb: [u8; 16], out: (u8, usize), want: Want) {
    check(rt, out.1 <= 4096);
    let data = [out.0; 4096];
    let data = &data[..out.1];
    match want {
        Want::Back(value, count) => {
            check(rt, count <= 4096);
            let back = [value; 4096];
            gives(rt, disk, cdb, data, &back[..count]);
        }
        Want::Check(key, asc, ascq) => checks(rt, disk, cdb, data, (key, asc, ascq)),
    }
}

/// A command of at most 10 bytes, how many bytes of which value are its data, and what it gives.
type Narrow = ([u8; 10], (u8, usize), Want);

/// Serves these, in order.
fn serves_narrow(rt: &impl Abort, disk: &mut Disk, rows: &[Narrow]) {
    for (cdb, out, want) in rows {
        serves(rt, disk, narrow(*cdb), *out, *want);
    }
}

/// A command of 16 bytes by its code, its first block and its count, how many bytes of which value are its data, and what it gives.
type Wide = (u8, u64, u32, (u8, usize), Want);

/// Serves these, in order.
fn serves_wide(rt: &impl Abort, disk: &mut Disk, rows: &[Wide]) {
    for (code, lba, count, out, want) in rows {
        serves(rt, disk, wide(*code, 0, *lba, *count), *out, *want);
    }
}

const REFUSED: &[Narrow] = &[
    ([0x03, 0, 0, 0, 0, 0, 0, 0, 0, 0], (0, 0), CODE),
    ([0x08, 0, 0, 0, 0, 0, 0, 0, 0, 0], (0, 0), CODE),
    ([0x9f, 0, 0, 0, 0, 0, 0, 0, 0, 0], (0, 0), CODE),
    ([0xff, 0, 0, 0, 0, 0, 0, 0, 0, 0], (0, 0), CODE),
    ([0x12, 1, 0, 0, 36, 0, 0, 0, 0, 0], (0, 0), FIELD),
    ([0x12, 0, 0x83, 0, 36, 0, 0, 0, 0, 0], (0, 0), FIELD),
    // Nine blocks are too many before they are past the end.
    ([0x28, 0, 0, 0, 0, 60, 0, 0, 9, 0], (0, 0), FIELD),
    ([0x2a, 0, 0, 0, 0, 60, 0, 0, 9, 0], (0, 0), FIELD),
    ([0x2a, 0, 0, 0, 0, 3, 0, 0, 1, 0], (0, 511), FIELD),
    ([0x2a, 0, 0, 0, 0, 3, 0, 0, 0, 0], (0, 512), FIELD),
    ([0x28, 0, 0, 0, 0, 63, 0, 0, 2, 0], (0, 0), RANGE),
    ([0x28, 0, 0, 0, 0, 65, 0, 0, 0, 0], (0, 0), RANGE),
    ([0x28, 0, 255, 255, 255, 255, 0, 0, 1, 0], (0, 0), RANGE),
    ([0x2a, 0, 0, 0, 0, 64, 0, 0, 1, 0], (0, 512), RANGE),
    ([0x28, 0, 0, 0, 0, 8, 0, 0, 2, 0], (0, 0), MEDIUM),
    ([0x28, 0, 0, 0, 0, 9, 0, 0, 2, 0], (0, 0), MEDIUM),
    // Past the end comes before the bad block.
    ([0x28, 0, 0, 0, 1, 9, 0, 0, 1, 0], (0, 0), RANGE),
];

#[test]
fn refuses_by_the_first_cause(rt: HostRuntime) -> Result<(), Fail> {
    let mut disk = Disk::make(rt.alloc(), 64, &[9, 9])?;
    serves_narrow(&rt, &mut disk, REFUSED);
    drop(disk);
    Ok(())
}

const WRITTEN: &[Narrow] = &[
    ([0x28, 0, 0, 0, 0, 63, 0, 0, 1, 0], (0, 0), ZEROS),
    ([0x28, 0, 0, 0, 0, 64, 0, 0, 0, 0], (0, 0), DONE),
    ([0x2a, 0, 0, 0, 0, 64, 0, 0, 0, 0], (0, 0), DONE),
    ([0x2a, 0, 0, 0, 0, 3, 0, 0, 1, 0], (0x5a, 512), DONE),
    (
        [0x28, 0, 0, 0, 0, 3, 0, 0, 1, 0],
        (0, 0),
        Want::Back(0x5a, 512),
    ),
    ([0x28, 0, 0, 0, 0, 4, 0, 0, 1, 0], (0, 0), ZEROS),
    ([0x2a, 0, 0, 0, 0, 63, 0, 0, 1, 0], (1, 512), DONE),
];

/// A bad block takes what is written and stays unreadable.
const BAD: &[Narrow] = &[
    ([0x2a, 0, 0, 0, 0, 9, 0, 0, 1, 0], (1, 512), DONE),
    ([0x28, 0, 0, 0, 0, 9, 0, 0, 1, 0], (0, 0), MEDIUM),
];

#[test]
fn reads_what_was_written(rt: HostRuntime) -> Result<(), Fail> {
    let mut disk = Disk::make(rt.alloc(), 64, &[9])?;
    let d = &mut disk;
    serves_narrow(&rt, d, WRITTEN);
    // Eight blocks from 56 on, the last over an old one: the greatest request.
    let mut most = [7u8; 4096];
    most[4095] = 8;
    good(&rt, d, [0x2a, 0, 0, 0, 0, 56, 0, 0, 8, 0], &most, &[]);
    good(&rt, d, [0x28, 0, 0, 0, 0, 56, 0, 0, 8, 0], &[], &most);
    serves_narrow(&rt, d, BAD);
    drop(disk);
    Ok(())
}

/// The service action, the first block and the count of a read of the capacity, and how many bytes it gives. The service action has five bits.
const CAPACITIES: [(u8, u64, u32, usize); 6] = [
    (0x10, 0, 32, 32),
    (0x10, 0, 33, 32),
    (0x10, 0, u32::MAX, 32),
    (0x10, 0, 12, 12),
    (0x10, 0, 0, 0),
    (0xf0, 7, 32, 32),
];

/// The greatest disk: its last place has 40 bits, so a read of its capacity in 32 bits gives the greatest number.
#[test]
fn tells_the_greatest_capacity(rt: HostRuntime) -> Result<(), Fail> {
    let mut disk = Disk::make(rt.alloc(), 1 << 40, &[])?;
    let d = &mut disk;
    let short = [255, 255, 255, 255, 0, 0, 2, 0];
    good(&rt, d, [0x25, 0, 0, 0, 0, 0, 0, 0, 0, 0], &[], &short);
    let mut long = [0; 32];
    long[3..12].copy_from_slice(&[255, 255, 255, 255, 255, 0, 0, 2, 0]);
    for (action, lba, count, len) in CAPACITIES {
        check(&rt, len <= 32);
        gives(&rt, d, wide(0x9e, action, lba, count), &[], &long[..len]);
    }
    for action in [0, 0x11, 0x31] {
        serves(&rt, d, wide(0x9e, action, 0, 32), (0, 0), FIELD);
    }
    drop(disk);
    Ok(())
}

const LAST: u64 = (1 << 40) - 1;

const FAR_OUT: &[Wide] = &[
    (0x8a, LAST, 1, (0xaa, 512), DONE),
    (0x88, LAST, 1, (0, 0), Want::Back(0xaa, 512)),
    (0x88, 0xffff_ffff, 1, (0, 0), ZEROS),
];

/// What one form of the command wrote, the other one reads.
const BOTH_FORMS: &[Narrow] = &[
    ([0x28, 0, 255, 255, 255, 255, 0, 0, 1, 0], (0, 0), ZEROS),
    ([0x2a, 0, 0, 1, 0, 2, 0, 0, 1, 0], (7, 512), DONE),
];

const PAST_THE_END: &[Wide] = &[
    (0x88, 0x1_0002, 1, (0, 0), Want::Back(7, 512)),
    (0x88, LAST + 1, 0, (0, 0), DONE),
    (0x88, LAST - 4, 1, (0, 0), MEDIUM),
    (0x88, LAST, 2, (0, 0), RANGE),
    (0x8a, LAST + 1, 1, (1, 512), RANGE),
    (0x88, 1 << 40, 1, (0, 0), RANGE),
    // A place and a count whose sum has more than 64 bits.
    (0x88, u64::MAX, 8, (0, 0), RANGE),
    (0x8a, u64::MAX, 8, (1, 4096), RANGE),
    (0x88, u64::MAX, u32::MAX, (0, 0), FIELD),
    (0x8a, u64::MAX, u32::MAX, (1, 512), FIELD),
];

/// Places beyond 32 bits.
#[test]
fn moves_blocks_far_out(rt: HostRuntime) -> Result<(), Fail> {
    let mut disk = Disk::make(rt.alloc(), 1 << 40, &[LAST - 4])?;
    let d = &mut disk;
    serves_wide(&rt, d, FAR_OUT);
    serves_narrow(&rt, d, BOTH_FORMS);
    serves_wide(&rt, d, PAST_THE_END);
    drop(disk);
    Ok(())
}

/// Each of the first so many blocks is written.
fn fills(rt: &impl Abort, disk: &mut Disk, count: u64) {
    for lba in 0..count {
        serves(rt, disk, wide(0x8a, 0, lba, 1), (1, 512), DONE);
    }
}

const FULL: &[Wide] = &[
    (0x8a, 65_536, 1, (2, 512), SPACE),
    // Neither of two blocks is written where one has no space.
    (0x8a, 65_535, 2, (2, 1024), SPACE),
    (0x88, 65_535, 1, (0, 0), Want::Back(1, 512)),
    (0x88, 65_536, 1, (0, 0), ZEROS),
    // Past the end comes before that, and what was written can be written again.
    (0x8a, 65_536, 2, (2, 1024), RANGE),
    (0x8a, 0, 8, (3, 4096), DONE),
    (0x88, 7, 1, (0, 0), Want::Back(3, 512)),
    (0x8a, 65_537, 0, (0, 0), DONE),
];

/// A disk of 65,537 blocks takes 65,536 of them, whichever.
#[test]
fn has_space_for_65536_blocks(rt: HostRuntime) -> Result<(), Fail> {
    let mut disk = Disk::make(rt.alloc(), 65_537, &[])?;
    fills(&rt, &mut disk, 65_536);
    serves_wide(&rt, &mut disk, FULL);
    drop(disk);
    Ok(())
}

/// A bad block that is written takes space as well.
const BAD_FULL: &[Wide] = &[
    (0x8a, 65_535, 2, (2, 1024), SPACE),
    (0x8a, 65_535, 1, (2, 512), DONE),
    (0x8a, 65_536, 1, (2, 512), SPACE),
    (0x88, 0, 1, (0, 0), MEDIUM),
];

#[test]
fn bad_blocks_take_space(rt: HostRuntime) -> Result<(), Fail> {
    let mut disk = Disk::make(rt.alloc(), 65_544, &[0])?;
    fills(&rt, &mut disk, 65_535);
    serves_wide(&rt, &mut disk, BAD_FULL);
    drop(disk);
    Ok(())
}
