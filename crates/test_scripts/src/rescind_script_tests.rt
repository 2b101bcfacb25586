//! Scripts that take a disk back, read or refused, and their reports.

use crate::bus_script_tests::{
    check_accepted, check_forms, check_line, check_refused, repeated, reported, script_of,
};
use bus_script::{LineResult, Reply, What, Why6};
use scsi_disk::{Chunk, DiskReply};

fn rescind(device: u32, after: u32, held: bool) -> What {
    What::Rescind {
        device,
        after,
        held,
    }
}

// What the line says in its two forms.
#[test]
fn reads_rescinds(rt: HostRuntime) {
    let script = script_of(
        &rt,
        b"offer disk a 64 0\noffer disk after 64 0\nrescind a after 0\n rescind  after after 4096 held \n",
    );
    check_line(&rt, &script, 2, 3, &rescind(0, 0, false));
    check_line(&rt, &script, 3, 4, &rescind(1, 4096, true));
}

const ACCEPTED: [(&[u8], usize); 7] = [
    (b"offer disk d 64 0\nrescind d after 4096\n", 2),
    (b"offer disk d 64 0\nrescind d after 1 held\n", 2),
    (b"offer disk held 64 0\nrescind held after 2 held\n", 2),
    (
        b"offer disk d 64 0\nrescind d after 1\nready d\nclose d\nphase\nready d\n",
        6,
    ),
    (b"offer disk d 64 0\nclose d\nrescind d after 0\n", 3),
    (b"offer disk d 64 0\nphase\nrescind d after 3\n", 3),
    (
        b"offer disk d 64 0\noffer disk e 64 0\nrescind d after 1\nphase\nrescind e after 1\n",
        5,
    ),
];

#[test]
fn accepts_rescinds(rt: HostRuntime) {
    check_accepted(&rt, &ACCEPTED);
}

const NO_FORM: [(&[u8], u32); 11] = [
    (b"rescind\n", 1),
    (b"rescind d\n", 1),
    (b"rescind d after\n", 1),
    (b"rescind after 1\n", 1),
    (b"rescind d before 1\n", 1),
    (b"rescind d after held\n", 1),
    (b"rescind d after 01\n", 1),
    (b"rescind d after 1 hold\n", 1),
    (b"rescind d after 1 held held\n", 1),
    (b"rescind 0 after 1\n", 1),
    (b"rescind d after 100000000000000000000\n", 1),
];

#[test]
fn refuses_rescind_forms(rt: HostRuntime) {
    check_forms(&rt, &NO_FORM);
}

// Each reason, and where two stand against a line, the first of them.
const REFUSED: [(&[u8], u32, Why6); 18] = [
    (
        b"offer disk d 64 0\nrescind d after 1\nphase\nrescind d after 1\n",
        4,
        Why6::Order,
    ),
    (
        b"offer disk d 64 0\nrescind d after 1\nphase\nclose d\n",
        4,
        Why6::Order,
    ),
    (
        b"offer disk d 64 0\nclose d\nphase\nrescind d after 1\n",
        4,
        Why6::Order,
    ),
    (
        b"offer disk d 64 0\nclose d\nrescind d after 1\nphase\nphase\nclose d\n",
        6,
        Why6::Order,
    ),
    (
        b"offer disk d 64 0\nrescind d after 1\nwindow d 1\n",
        3,
        Why6::Order,
    ),
    (
        b"offer hb h\nclose h\nphase\nrescind h after 1\n",
        4,
        Why6::Order,
    ),
    (
        b"offer disk d 64 0\nclose d\nphase\nrescind d after 4097\n",
        4,
        Why6::Order,
    ),
    (b"rescind d after 1\n", 1, Why6::UnknownName),
    (b"offer hb h\nrescind h after 1\n", 2, Why6::UnknownName),
    (
        b"offer shutdown s\nrescind s after 1 held\n",
        2,
        Why6::UnknownName,
    ),
    (b"offer hb h\nrescind h after 4097\n", 2, Why6::UnknownName),
    (
        b"offer disk d 64 0\nrescind d after 1\nrescind d after 1\n",
        3,
        Why6::Repeat,
    ),
    (
        b"offer disk d 64 0\nrescind d after 1\nclose d\nclose d\n",
        4,
        Why6::Repeat,
    ),
    (
        b"offer disk d 64 0\nrescind d after 1\nrescind d after 0 held\n",
        3,
        Why6::Repeat,
    ),
    (b"offer disk d 64 0\nrescind d after 4097\n", 2, Why6::Range),
    (
        b"offer disk d 64 0\nrescind d after 0 held\n",
        2,
        Why6::Range,
    ),
    (
        b"offer disk d 64 0\nrescind d after 4097 held\n",
        2,
        Why6::Range,
    ),
    (
        b"offer disk d 64 0\nrescind d after 18446744073709551616\n",
        2,
        Why6::Range,
    ),
];

#[test]
fn refuses_rescinds(rt: HostRuntime) {
    check_refused(&rt, &REFUSED);
    let last = repeated(&rt, b"", b"#\n", 20_000, b"rescind d after 1\n");
    check_refused(&rt, &[(&last, 20_001, Why6::Limit)]);
}

fn zeros(serial: u32) -> LineResult {
    let reply = Reply::Disk(DiskReply::Good(Chunk::of(&[0; 512])));
    LineResult::Done { serial, reply }
}

// A rescind has no line of the report, and isn't a request.
#[test]
fn reports_rescinds(rt: HostRuntime) {
    reported(
        &rt,
        b"offer disk d0 64 0\nwindow d0 4\nread d0 0 1\nread d0 1 1\nread d0 2 1\nread d0 3 1\nrescind d0 after 2\nphase\ncapacity d0\n",
        &[
            zeros(0),
            zeros(1),
            LineResult::Unserved,
            LineResult::Unserved,
            LineResult::Gone,
        ],
        b"3 done @0 good 512x00\n4 done @1 good 512x00\n5 rescinded unserved\n6 rescinded unserved\n9 gone\nend requests 5 done 2 rescinded 2\n",
    );
    reported(
        &rt,
        b"offer disk d0 64 0\nwindow d0 4\nread d0 0 1\nread d0 1 1\nread d0 2 1\nread d0 3 1\nrescind d0 after 2 held\nphase\ncapacity d0\n",
        &[
            zeros(0),
            LineResult::RescindedServed { serial: 1 },
            LineResult::Unserved,
            LineResult::Unserved,
            LineResult::Gone,
        ],
        b"3 done @0 good 512x00\n4 rescinded @1\n5 rescinded unserved\n6 rescinded unserved\n9 gone\nend requests 5 done 1 rescinded 3\n",
    );
}
