//! Storage packets against those that Linux's own structs make.
ghost use Rattle.std.specs.Prelude.{◌≡◌, ◌<◌, ◌≤◌, length};

use crate::check::check;
use scsi_disk::{Chunk, Command, DiskReply, DiskRequest};
use std::process::Abort;
use stor_proto::{
    FieldName, Operation, SrbEnd, SrbStop, Vstor, VstorFault, answer, decode_vstor, encode_vstor,
    srb_ask, srb_asks, srb_command, srb_done, srb_end, srb_reply, srb_request, srb_stop,
    srb_stopped, start_up,
};

/// A packet of 64 bytes that begins with these and has zeros behind them.
fn packet(front: &[u8]) -> [u8; 64]
    requires { length front.now ≤ 64 }
{
    let mut bytes = [0; 64];
    bytes[..front.len()].copy_from_slice(front);
    bytes
}

/// The packet with these bytes, which is written back as they are.
fn read(rt: &impl Abort, front: &[u8]) -> Vstor
    requires { length front.now ≤ 64 }
{
    let bytes = packet(front);
    match decode_vstor(&bytes) {
        Ok(p) => {
            let mut out = [0xee; 64];
            encode_vstor(&p, &mut out);
            check(rt, out == bytes);
            p
        }
        Err(fault) => panic!(rt; "{fault}"),
    }
}

/// What is asked in the start-up and its answer, by the operation and the first bytes of both after the flags.
fn answered(rt: &impl Abort, operation: u8, ask: [u8; 6], want: [u8; 6]) {
    let mut request = [0; 14];
    request[0] = operation;
    request[4] = 1;
    request[8..].copy_from_slice(&ask);
    let mut reply = [0; 14];
    reply[0] = 1;
    reply[4] = 1;
    reply[8..].copy_from_slice(&want);
    let p = read(rt, &request);
    check(rt, p.operation != 3);
    check(rt, Operation::of(p.operation).is_some());
    check(rt, answer(&p) == read(rt, &reply));
}

/// The operation of what is asked in the start-up, and the bytes behind the flags of what is asked and of its answer.
const ANSWERED: [(u8, [u8; 6], [u8; 6]); 12] = [
    (7, [0, 0, 0, 0, 0, 0], [0, 0, 0, 0, 0, 0]),
    (8, [0, 0, 0, 0, 9, 0], [0, 0, 0, 0, 9, 0]),
    (11, [0, 0, 0, 0, 0, 0], [0, 0, 0, 0, 0, 0]),
    (9, [0, 0, 0, 0, 0x02, 6], [0, 0, 0, 0, 0x02, 6]),
    (9, [0, 0, 0, 0, 0x00, 6], [0, 0, 0, 0, 0x00, 6]),
    (9, [0, 0, 0, 0, 0x01, 5], [0, 0, 0, 0, 0x01, 5]),
    (9, [0, 0, 0, 0, 0x00, 0], [1, 0, 0, 0, 0x00, 0]),
    (13, [0, 0, 0, 0, 0, 0], [0, 0, 0, 0, 0, 0]),
    (13, [0, 0, 0, 0, 3, 0], [0, 0, 0, 0, 3, 0]),
    (13, [0, 0, 0, 0, 4, 0], [1, 0, 0, 0, 4, 0]),
    (2, [0, 0, 0, 0, 0, 0], [1, 0, 0, 0, 0, 0]),
    (1, [5, 0, 0, 0, 0, 0], [1, 0, 0, 0, 0, 0]),
];

#[test]
fn answers_the_start_up(rt: HostRuntime) {
    for (operation, ask, want) in ANSWERED {
        answered(&rt, operation, ask, want);
    }
}

/// The guest asks this in the start-up.
fn starts(rt: &impl Abort, operation: Operation, first: u16, want: &[u8])
    requires { length want.now ≤ 64 }
{
    check(rt, start_up(operation, first) == read(rt, want));
}

#[test]
fn begins_as_linux_does(rt: HostRuntime) {
    starts(&rt, Operation::BeginInitialization, 0, &[7, 0, 0, 0, 1]);
    let version = [9, 0, 0, 0, 1, 0, 0, 0, 0, 0, 0, 0, 2, 6];
    starts(&rt, Operation::QueryProtocolVersion, 0x0602, &version);
    starts(&rt, Operation::QueryProperties, 0, &[10, 0, 0, 0, 1]);
    starts(&rt, Operation::EndInitialization, 0, &[8, 0, 0, 0, 1]);
    let subs = [13, 0, 0, 0, 1, 0, 0, 0, 0, 0, 0, 0, 2];
    starts(&rt, Operation::CreateSubChannels, 2, &subs);
}

#[test]
fn tells_its_properties(rt: HostRuntime) {
    let p = read(
        &rt,
        &[10, 0, 0, 0, 1, 0, 0, 0, 0, 0, 0, 0, 7, 7, 7, 7, 7, 7, 7, 7],
    );
    check(&rt, p.operation == 10);
    let want = [
        1, 0, 0, 0, 1, 0, 0, 0, 0, 0, 0, 0, 7, 7, 7, 7, 3, 0, 7, 7, 1, 0, 0, 0, 0, 0x10, 0, 0,
    ];
    check(&rt, answer(&p) == read(&rt, &want));
}

/// A packet that begins with these bytes is refused so.
fn refused(rt: &impl Abort, front: &[u8], want: VstorFault)
    requires { length front.now ≤ 64 }
{
    check(rt, decode_vstor(&packet(front)) == Err(want));
}

#[test]
fn refuses_by_the_first_cause(rt: HostRuntime) {
    let short = VstorFault::Short { have: 63, need: 64 };
    check(&rt, decode_vstor(&[0; 63]) == Err(short));
    let front = [0, 0, 0, 0, 1, 0, 0, 0, 5];
    refused(&rt, &front, VstorFault::Operation { value: 0 });
    let front = [4, 0, 0, 0, 1, 0, 0, 0, 5];
    refused(&rt, &front, VstorFault::Operation { value: 4 });
    let front = [12, 0, 0, 0, 1, 0, 0, 0, 5];
    refused(&rt, &front, VstorFault::Operation { value: 12 });
    let front = [14, 0, 0, 0, 1, 0, 0, 0, 5];
    refused(&rt, &front, VstorFault::Operation { value: 14 });
    let status = VstorFault::Field {
        name: FieldName::Status,
        value: 0x0100_0005,
    };
    refused(&rt, &[3, 0, 0, 0, 1, 0, 0, 0, 5, 0, 0, 1], status);
}

/// An srb's packet: the operation, and the srb from its status on.
fn srb(rt: &impl Abort, operation: u8, front: &[u8]) -> Vstor
    requires { length front.now ≤ 50 }
{
    let mut bytes = [0; 64];
    bytes[0] = operation;
    bytes[4] = 1;
    bytes[12] = 52;
    bytes[14..14 + front.len()].copy_from_slice(front);
    read(rt, &bytes)
}

/// The guest's packet of a command.
fn ask(rt: &impl Abort, cdb: [u8; 16], out: &[u8]) -> Vstor
    requires { length out.now ≤ 4096 }
{
    let out = Chunk::of(out);
    let request = DiskRequest { cdb, out };
    match Command::of(&request.cdb) {
        Some(Command::Read { count, .. }) => {
            check(rt, count <= 8);
            srb_ask(&request)
        }
        Some(Command::Inquiry { allocation, .. }) => {
            check(rt, allocation <= 4096);
            srb_ask(&request)
        }
        Some(_) => srb_ask(&request),
        None => panic!(rt; "{cdb:?}"),
    }
}

const READY: [u8; 11] = [0, 0, 0, 0, 0, 0, 6, 20, 0, 0, 0];

const INQUIRY: [u8; 19] = [
    0, 0, 0, 0, 0, 0, 6, 20, 1, 0, 36, 0, 0, 0, 0x12, 0, 0, 0, 36,
];

const CAPACITY: [u8; 15] = [0, 0, 0, 0, 0, 0, 10, 20, 1, 0, 8, 0, 0, 0, 0x25];

const READ: [u8; 23] = [
    0, 0, 0, 0, 0, 0, 10, 20, 1, 0, 0, 2, 0, 0, 0x28, 0, 0, 0, 0, 63, 0, 0, 1,
];

const WRITE: [u8; 23] = [
    0, 0, 0, 0, 0, 0, 10, 20, 0, 0, 0, 2, 0, 0, 0x2a, 0, 0, 0, 0, 3, 0, 0, 1,
];

const READ_16: [u8; 28] = [
    0, 0, 0, 0, 0, 0, 16, 20, 1, 0, 0, 4, 0, 0, 0x88, 0, 1, 2, 3, 4, 5, 6, 7, 8, 0, 0, 0, 2,
];

const WRITE_16: [u8; 28] = [
    0, 0, 0, 0, 0, 0, 16, 20, 0, 0, 0, 2, 0, 0, 0x8a, 0, 0, 0, 0, 1, 0, 0, 0, 0, 0, 0, 0, 1,
];

const CAPACITY_16: [u8; 28] = [
    0, 0, 0, 0, 0, 0, 16, 20, 1, 0, 32, 0, 0, 0, 0x9e, 0x10, 0, 0, 0, 0, 0, 0, 0, 0, 0, 0, 0, 32,
];

/// The guest asks for a command of at most 10 bytes by an srb of these bytes.
fn asks(rt: &impl Abort, cdb: [u8; 10], out: &[u8], want: &[u8])
    requires out { length out.now ≤ 4096 }
    requires want { length want.now ≤ 50 }
{
    let mut block = [0u8; 16];
    block[..10].copy_from_slice(&cdb);
    check(rt, ask(rt, block, out) == srb(rt, 3, want));
}

/// The guest asks for the command in an srb by that srb.
fn asks_long(rt: &impl Abort, want: [u8; 28], out: &[u8])
    requires { length out.now ≤ 4096 }
{
    let mut block = [0u8; 16];
    block[..14].copy_from_slice(&want[14..]);
    check(rt, ask(rt, block, out) == srb(rt, 3, &want));
}

#[test]
fn asks_as_linux_does(rt: HostRuntime) {
    asks(&rt, [0; 10], &[], &READY);
    asks(&rt, [0x12, 0, 0, 0, 36, 0, 0, 0, 0, 0], &[], &INQUIRY);
    asks(&rt, [0x25, 0, 0, 0, 0, 0, 0, 0, 0, 0], &[], &CAPACITY);
    asks(&rt, [0x28, 0, 0, 0, 0, 63, 0, 0, 1, 0], &[], &READ);
    asks(&rt, [0x2a, 0, 0, 0, 0, 3, 0, 0, 1, 0], &[9; 512], &WRITE);
    asks_long(&rt, READ_16, &[]);
    asks_long(&rt, WRITE_16, &[9; 512]);
    asks_long(&rt, CAPACITY_16, &[]);
    // The capacity has 32 bytes, whatever may come.
    let mut most = CAPACITY_16;
    most[26] = 1;
    asks_long(&rt, most, &[]);
    // Fewer may come.
    let mut few = CAPACITY_16;
    few[10] = 8;
    few[27] = 8;
    asks_long(&rt, few, &[]);
}

/// The disk's request in an srb with 600 bytes behind it has this data.
fn requested(rt: &impl Abort, front: [u8; 23], data: &[u8]) {
    let p = srb(rt, 3, &front);
    check(rt, p.operation == 3);
    match srb_request(&p, Chunk::of(&[9; 600])) {
        Ok(request) => {
            let mut cdb = [0; 16];
            cdb[..9].copy_from_slice(&front[14..]);
            check(rt, request.cdb == cdb);
            check(rt, request.out.bytes() == data);
        }
        Err(stop) => panic!(rt; "{stop}"),
    }
}

/// The srb of a read with another byte at a place is stopped by this status.
fn stopped(rt: &impl Abort, place: usize, value: u8, status: u8)
    requires { place < 23 }
{
    let mut front = READ;
    front[place] = value;
    let p = srb(rt, 3, &front);
    check(rt, p.operation == 3);
    match srb_request(&p, Chunk::empty()) {
        Ok(_) => panic!(rt; "{place}"),
        Err(stop) => check(rt, stop == SrbStop { status }),
    }
    front[0] = status;
    let stop = srb_stop(&p, status);
    check(rt, stop == srb(rt, 1, &front));
    check(rt, srb_done(&stop, &[]).is_none());
}

#[test]
fn reads_requests(rt: HostRuntime) {
    // The data of a write is as long as the srb says, and a read has none.
    requested(&rt, WRITE, &[9; 512]);
    requested(&rt, READ, &[]);
    // Path, target, lun; and a command of 17 bytes.
    stopped(&rt, 3, 1, 0x20);
    stopped(&rt, 4, 1, 0x20);
    stopped(&rt, 5, 1, 0x20);
    stopped(&rt, 6, 17, 4);
}

/// The srb of a write isn't stopped: its command is told, and what it takes of 600 bytes.
#[test]
fn takes_a_request_apart(rt: HostRuntime) {
    let p = srb(&rt, 3, &WRITE);
    check(&rt, p.operation == 3);
    check(
        &rt,
        srb_command(&p) == Some(Command::Write { lba: 3, count: 1 }),
    );
    match srb_stopped(&p) {
        Some(stop) => panic!(rt; "{stop}"),
        None => check(
            &rt,
            srb_asks(&p, &[9; 600]).out.bytes() == [9; 512].as_slice(),
        ),
    }
}

/// The srb of a read that was done tells how many bytes moved.
#[test]
fn tells_how_it_ended(rt: HostRuntime) {
    let mut done = READ;
    done[0] = 1;
    let end = srb_end(&srb(&rt, 1, &done));
    check(&rt, end == Some(SrbEnd::Done { moved: 512 }));
}

/// What comes back of a request with this reply: the answer's srb, and the reply that is read in it.
fn replies(rt: &impl Abort, ask: &[u8], reply: &DiskReply, want: &[u8], back: &[u8])
    requires ask { length ask.now ≤ 50 }
    requires want { length want.now ≤ 50 }
{
    let p = srb(rt, 3, ask);
    check(rt, p.operation == 3);
    let answered = srb_reply(&p, reply);
    check(rt, answered == srb(rt, 1, want));
    match (srb_done(&answered, back), reply) {
        (Some(DiskReply::Good(got)), DiskReply::Good(sent)) => {
            check(rt, got.bytes() == sent.bytes());
        }
        (
            Some(DiskReply::Check { key, asc, ascq }),
            DiskReply::Check {
                key: k,
                asc: a,
                ascq: q,
            },
        ) => {
            check(rt, (key, asc, ascq) == (*k, *a, *q));
        }
        _ => panic!(rt; "another reply"),
    }
}

#[test]
fn replies_as_linux_reads(rt: HostRuntime) {
    let mut good = CAPACITY;
    good[0] = 1;
    // More bytes than the reply has came back.
    let bytes = [0, 0, 0, 63, 0, 0, 2, 0, 7, 7];
    replies(
        &rt,
        &CAPACITY,
        &DiskReply::Good(Chunk::of(&bytes[..8])),
        &good,
        &bytes,
    );
    // A write moved its blocks, though nothing comes back.
    let mut good = WRITE;
    good[0] = 1;
    replies(&rt, &WRITE, &DiskReply::Good(Chunk::empty()), &good, &[]);
    let mut good = WRITE_16;
    good[0] = 1;
    let none = DiskReply::Good(Chunk::empty());
    replies(&rt, &WRITE_16, &none, &good, &[]);
    let reply = DiskReply::Check {
        key: 3,
        asc: 0x11,
        ascq: 0,
    };
    let want = [
        0x84, 2, 0, 0, 0, 0, 10, 18, 1, 0, 0, 0, 0, 0, 0x70, 0, 3, 0, 0, 0, 0, 10, 0, 0, 0, 0, 0x11,
    ];
    replies(&rt, &READ, &reply, &want, &[]);
}
