//! The lines of a disk: read, refused and reported.
ghost use Rattle.std.specs.Prelude.{◌≤◌, length};

use crate::bus_script_tests::{
    check_accepted, check_forms, check_line, check_offer, check_refused, reported, script_of,
};
use crate::check::check;
use bus_script::{Ask, DeviceSpec, LineResult, Reply, Script, What, Why6};
use scsi_disk::{Chunk, DiskReply, DiskRequest};
use std::process::Abort;

fn ask(cdb: [u8; 16], out: &[u8]) -> What
    requires { length out.now ≤ 4096 }
{
    What::Ask {
        device: 0,
        ask: Ask::Disk(DiskRequest {
            cdb,
            out: Chunk::of(out),
        }),
    }
}

const INQUIRY: [u8; 16] = [0x12, 0, 0, 0, 36, 0, 0, 0, 0, 0, 0, 0, 0, 0, 0, 0];

const CAPACITY: [u8; 16] = [0x25, 0, 0, 0, 0, 0, 0, 0, 0, 0, 0, 0, 0, 0, 0, 0];

const LONG_CAPACITY: [u8; 16] = [0x9e, 0x10, 0, 0, 0, 0, 0, 0, 0, 0, 0, 0, 0, 32, 0, 0];

const FLUSH: [u8; 16] = [0x35, 0, 0, 0, 0, 0, 0, 0, 0, 0, 0, 0, 0, 0, 0, 0];

const READ: [u8; 16] = [
    0x28, 0, 0xff, 0xff, 0xff, 0xff, 0, 0, 4, 0, 0, 0, 0, 0, 0, 0,
];

const LONG_READ: [u8; 16] = [0x88, 0, 0, 0, 0, 1, 0, 0, 0, 0, 0, 0, 0, 4, 0, 0];

const LONG_WRITE: [u8; 16] = [
    0x8a, 0, 0xff, 0xff, 0xff, 0xff, 0xff, 0xff, 0xff, 0xff, 0, 0, 0, 1, 0, 0,
];

const WRITE: [u8; 16] = [0x2a, 0, 0, 1, 2, 3, 0, 0, 1, 0, 0, 0, 0, 0, 0, 0];

const WRITE_NONE: [u8; 16] = [0x2a, 0, 0, 0, 0, 0, 0, 0, 0, 0, 0, 0, 0, 0, 0, 0];

// The line at this place asks the disk for this.
fn check_ask(rt: &impl Abort, script: &Script, at: usize, number: u32, cdb: [u8; 16], out: &[u8])
    requires { length out.now ≤ 4096 }
{
    check_line(rt, script, at, number, &ask(cdb, out));
}

// What each line of a disk says. The commands are those of the SCSI block commands.
#[test]
fn reads_disk_lines(rt: HostRuntime) {
    let script = script_of(
        &rt,
        b"offer disk d 1099511627776 3\nbad d 1099511627775\nready d\ninquiry d\ncapacity d\nflush d\nread d 4294967295 4\nwrite d 66051 1 Fe\nwrite d 0 0 00\ncapacity16 d\nread d 4294967296 4\nwrite d 18446744073709551615 1 00\n",
    );
    check(&rt, script.lines().len() == 12);
    let disk = DeviceSpec::Disk {
        blocks: 1 << 40,
        subs: 3,
    };
    check_offer(&rt, &script, 0, b"d", disk);
    let bad = What::Bad {
        device: 0,
        lba: (1 << 40) - 1,
    };
    check_line(&rt, &script, 1, 2, &bad);
    check_ask(&rt, &script, 2, 3, [0; 16], &[]);
    check_ask(&rt, &script, 3, 4, INQUIRY, &[]);
    check_ask(&rt, &script, 4, 5, CAPACITY, &[]);
    check_ask(&rt, &script, 5, 6, FLUSH, &[]);
    check_ask(&rt, &script, 6, 7, READ, &[]);
    check_ask(&rt, &script, 7, 8, WRITE, &[0xfe; 512]);
    check_ask(&rt, &script, 8, 9, WRITE_NONE, &[]);
    check_ask(&rt, &script, 9, 10, LONG_CAPACITY, &[]);
    check_ask(&rt, &script, 10, 11, LONG_READ, &[]);
    check_ask(&rt, &script, 11, 12, LONG_WRITE, &[0; 512]);
}

const ACCEPTED: [(&[u8], usize); 6] = [
    (b"offer disk disk 1 0\nbad disk 0\nread disk 0 4\n", 3),
    (b"offer disk a 64 3\noffer disk b 64 1\n", 2),
    (
        b"offer disk a 64 3\noffer disk b 64 3\noffer disk c 64 3\noffer disk e 64 2\noffer hb f\n",
        5,
    ),
    (
        b"offer disk a 64 0\noffer disk b 64 0\nbad a 9\nbad b 9\nbad a 10\n",
        5,
    ),
    (
        b"offer disk read 64 0\nread read 0 0\nwrite read 0 4 aF\n",
        3,
    ),
    (b"offer disk d0 64 0\nclose d0\nphase\nready d0\n", 4),
];

#[test]
fn accepts_disks(rt: HostRuntime) {
    check_accepted(&rt, &ACCEPTED);
}

const NO_FORM: [(&[u8], u32); 17] = [
    (b"offer disk d 64\n", 1),
    (b"offer disk d 64 0 0\n", 1),
    (b"offer disk d 064 0\n", 1),
    (b"read d 0\n", 1),
    (b"read d 0 1 5a\n", 1),
    (b"write d 0 1\n", 1),
    (b"write d 0 1 5\n", 1),
    (b"write d 0 1 5a0\n", 1),
    (b"write d 0 1 5g\n", 1),
    (b"write d 0 1 G0\n", 1),
    (b"read d 000000000000000000001 1\n", 1),
    (b"bad d 100000000000000000000\n", 1),
    (b"bad d\n", 1),
    (b"ready d 0\n", 1),
    (b"capacity16\n", 1),
    (b"capacity16 d 0\n", 1),
    (b"capacity17 d\n", 1),
];

#[test]
fn refuses_disk_forms(rt: HostRuntime) {
    check_forms(&rt, &NO_FORM);
}

const REFUSED_OFFERS: [(&[u8], u32, Why6); 14] = [
    (b"offer disk d 64 16\n", 1, Why6::Limit),
    (b"offer disk d 0 99999999999999999999\n", 1, Why6::Limit),
    (b"offer hb d\noffer disk d 0 15\n", 2, Why6::Limit),
    (b"offer hb d\nbeat d 1\noffer disk d 0 15\n", 3, Why6::Limit),
    (b"offer hb d\nbeat d 1\noffer disk d 0 14\n", 3, Why6::Order),
    (b"offer hb d\noffer disk d 0 4\n", 2, Why6::Repeat),
    (b"offer disk d 64 15\n", 1, Why6::Range),
    (
        b"offer disk a 64 3\noffer disk b 64 3\noffer disk c 64 3\noffer disk e 64 3\noffer hb f\n",
        5,
        Why6::Limit,
    ),
    (
        b"offer disk a 64 3\noffer disk b 64 3\noffer disk c 64 3\noffer hb f\noffer disk e 64 3\n",
        5,
        Why6::Limit,
    ),
    (b"offer disk d 64 4\n", 1, Why6::Range),
    (b"offer disk d 0 0\n", 1, Why6::Range),
    (b"offer disk d 1099511627777 0\n", 1, Why6::Range),
    (b"offer disk d 18446744073709551616 0\n", 1, Why6::Range),
    (b"offer disk d 64 0\nwindow d 65\n", 2, Why6::Range),
];

#[test]
fn refuses_disk_offers(rt: HostRuntime) {
    check_refused(&rt, &REFUSED_OFFERS);
}

const REFUSED_LINES: [(&[u8], u32, Why6); 14] = [
    (b"read d 0 9\n", 1, Why6::UnknownName),
    (b"offer hb h\nready h\n", 2, Why6::UnknownName),
    (b"offer hb h\ncapacity h\n", 2, Why6::UnknownName),
    (b"offer hb h\ncapacity16 h\n", 2, Why6::UnknownName),
    (b"offer hb h\nbad h 0\n", 2, Why6::UnknownName),
    (b"offer disk d 64 0\nbeat d 1\n", 2, Why6::UnknownName),
    (b"offer disk d 64 0\ndown d 1\n", 2, Why6::UnknownName),
    (b"offer disk d 64 0\nready d\nbad d 64\n", 3, Why6::Order),
    (b"offer disk d 64 0\nbad d 9\nbad d 9\n", 3, Why6::Repeat),
    (b"offer disk d 64 0\nbad d 64\n", 2, Why6::Range),
    (
        b"offer disk d 64 0\nbad d 18446744073709551616\n",
        2,
        Why6::Range,
    ),
    (
        b"offer disk d 64 0\nread d 18446744073709551616 1\n",
        2,
        Why6::Range,
    ),
    (b"offer disk d 64 0\nread d 0 9\n", 2, Why6::Range),
    (
        b"offer disk d 64 0\nwrite d 0 18446744073709551616 00\n",
        2,
        Why6::Range,
    ),
];

#[test]
fn refuses_disk_lines(rt: HostRuntime) {
    check_refused(&rt, &REFUSED_LINES);
}

fn good(serial: u32, bytes: &[u8]) -> LineResult
    requires { length bytes.now ≤ 4096 }
{
    let reply = Reply::Disk(DiskReply::Good(Chunk::of(bytes)));
    LineResult::Done { serial, reply }
}

fn condition(serial: u32, key: u8, asc: u8, ascq: u8) -> LineResult {
    let reply = Reply::Disk(DiskReply::Check { key, asc, ascq });
    LineResult::Done { serial, reply }
}

#[test]
fn reports_disks(rt: HostRuntime) {
    reported(
        &rt,
        b"offer disk d0 64 0\ncapacity d0\nread d0 63 1\nread d0 63 2\nread d0 0 0\n",
        &[
            good(0, &[0, 0, 0, 0x3f, 0, 0, 2, 0]),
            good(1, &[0; 512]),
            condition(2, 5, 0x21, 0),
            good(3, &[]),
        ],
        b"2 done @0 good 3x00+1x3f+2x00+1x02+1x00\n3 done @1 good 512x00\n4 done @2 check 5/21/00\n5 done @3 good\nend requests 4 done 4 rescinded 0\n",
    );
    reported(
        &rt,
        b"offer disk d0 64 0\nbad d0 9\nwrite d0 3 1 5a\nread d0 3 1\nread d0 9 1\n",
        &[
            good(0, &[]),
            good(1, &[0x5a; 512]),
            condition(2, 3, 0x11, 0),
        ],
        b"3 done @0 good\n4 done @1 good 512x5a\n5 done @2 check 3/11/00\nend requests 3 done 3 rescinded 0\n",
    );
}

#[test]
fn reports_large_disks(rt: HostRuntime) {
    let mut capacity = [0; 32];
    capacity[3..12].copy_from_slice(&[255, 255, 255, 255, 255, 0, 0, 2, 0]);
    reported(
        &rt,
        b"offer disk d0 1099511627776 0\ncapacity d0\ncapacity16 d0\nread d0 1099511627775 2\nwrite d0 65536 1 00\n",
        &[
            good(0, &[255, 255, 255, 255, 0, 0, 2, 0]),
            good(1, &capacity),
            condition(2, 5, 0x21, 0),
            condition(3, 7, 0x27, 7),
        ],
        b"2 done @0 good 4xff+2x00+1x02+1x00\n3 done @1 good 3x00+5xff+2x00+1x02+21x00\n4 done @2 check 5/21/00\n5 done @3 check 7/27/07\nend requests 4 done 4 rescinded 0\n",
    );
}

#[test]
fn reports_other_disks(rt: HostRuntime) {
    reported(
        &rt,
        b"offer disk d0 64 0\nclose d0\nphase\nready d0\n",
        &[LineResult::Closed],
        b"4 closed\nend requests 1 done 0 rescinded 0\n",
    );
    reported(
        &rt,
        b"offer disk d 64 0\nready d\nread d 0 4\n",
        &[condition(9, 0x1f, 0xab, 0x0c), good(10, &[0xff; 2048])],
        b"2 done @9 check 1f/ab/0c\n3 done @10 good 2048xff\nend requests 2 done 2 rescinded 0\n",
    );
}
