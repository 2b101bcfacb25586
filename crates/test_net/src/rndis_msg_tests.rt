//! Messages against those that Linux's structs make.

ghost use Rattle.std.specs.Prelude.{◌<◌, ◌≤◌};

mod vectors;

use crate::check::check;
use crate::hex::unhex;
use rndis_msg::{FieldName, Rndis, RndisFault, Small, decode, encode, encode_and_decode};
use std::alloc::Global;
use std::process::Abort;

// The type and the values of a message, and how many there are.
fn values(m: &Rndis) -> (u32, [u32; 9], usize)
    ensures { result.2 ≤ 9 }
{
    let two = |a, b| [a, b, 0, 0, 0, 0, 0, 0, 0];
    match *m {
        Rndis::Packet { .. } => (1, [0; 9], 0),
        Rndis::Initialize {
            request_id,
            major,
            minor,
            max_transfer,
        } => (
            2,
            [request_id, major, minor, max_transfer, 0, 0, 0, 0, 0],
            4,
        ),
        Rndis::InitializeComplete {
            request_id,
            status,
            major,
            minor,
            device_flags,
            medium,
            max_packets,
            max_transfer,
            alignment,
        } => (
            0x8000_0002,
            [
                request_id,
                status,
                major,
                minor,
                device_flags,
                medium,
                max_packets,
                max_transfer,
                alignment,
            ],
            9,
        ),
        Rndis::Halt { request_id } => (3, two(request_id, 0), 1),
        Rndis::Query {
            request_id,
            oid,
            ..
        } => (4, two(request_id, oid), 2),
        Rndis::QueryComplete {
            request_id,
            status,
            ..
        } => (0x8000_0004, two(request_id, status), 2),
        Rndis::Set {
            request_id,
            oid,
            ..
        } => (5, two(request_id, oid), 2),
        Rndis::SetComplete { request_id, status } => (0x8000_0005, two(request_id, status), 2),
        Rndis::Reset => (6, [0; 9], 0),
        Rndis::ResetComplete {
            status,
            addressing_reset,
        } => (0x8000_0006, two(status, addressing_reset), 2),
        Rndis::Keepalive { request_id } => (8, two(request_id, 0), 1),
        Rndis::KeepaliveComplete { request_id, status } => {
            (0x8000_0008, two(request_id, status), 2)
        }
    }
}

fn body(m: &Rndis) -> &[u8] {
    match m {
        Rndis::Packet { body }
        | Rndis::Query { body, .. }
        | Rndis::QueryComplete { body, .. }
        | Rndis::Set { body, .. } => body.bytes(),
        _ => &[],
    }
}

// The message is what the words say: its type, its values, and its buffer behind an equals sign.
fn is(rt: &impl Abort, m: &Rndis, text: &str) {
    let (kind, all, count) = values(m);
    let mut found = 0;
    for (i, word) in text.split(' ').enumerate() {
        if let Some(digits) = word.strip_prefix('=') {
            let mut bytes = [0; 1600];
            let len = unhex(rt, digits, &mut bytes);
            check(rt, body(m) == &bytes[..len]);
            found = i;
        } else {
            let want = if i == 0 { Some(&kind) } else { all.get(i - 1) };
            check(rt, want.copied() == word.parse::<u32>().ok());
        }
    }
    check(rt, found == count + 1);
}

// The bytes of a line are its message, or are refused by its fault.
fn reads(rt: &impl Abort, alloc: Global, line: &str) {
    let Some((digits, text)) = line.split_once(": ") else {
        panic!(rt; "{line}")
    };
    let mut bytes = [0; 1600];
    let len = unhex(rt, digits, &mut bytes);
    match decode(&bytes[..len]) {
        Ok(m) => is(rt, &m, text),
        Err(fault) => match fault.to_string(alloc) {
            Ok(got) => check(rt, text == got.as_str()),
            Err(_) => panic!(rt; "no memory"),
        },
    }
}

#[test]
fn reads_what_linux_writes(rt: HostRuntime) {
    let mut lines = 0u32;
    for line in vectors::WRITTEN.lines().chain(vectors::READ.lines()) {
        reads(&rt, rt.alloc(), line);
        lines = lines.saturating_add(1);
    }
    check(&rt, lines == 264);
}

// The message of a line is written as its bytes, and no byte behind them changes.
fn writes(rt: &impl Abort, line: &str) {
    let digits = line.split(':').next().unwrap_or("");
    let mut bytes = [0; 1600];
    let len = unhex(rt, digits, &mut bytes);
    let Ok(m) = decode(&bytes[..len]) else {
        panic!(rt; "{line}")
    };
    let mut out = [0xee; 1600];
    let written = encode(&m.again(), &mut out);
    check(rt, written == len);
    check(rt, out[..written] == bytes[..len]);
    check(rt, out[written] == 0xee);
    check(rt, encode_and_decode(&m).is_ok());
}

#[test]
fn writes_what_linux_reads(rt: HostRuntime) {
    for line in vectors::WRITTEN.lines() {
        writes(&rt, line);
    }
}

#[test]
fn a_buffer_grows_to_a_frame(rt: HostRuntime) {
    let mut body = Small::empty();
    check(&rt, body.bytes().is_empty());
    body.extend(&[1, 2]);
    body.extend(&[3; 1512]);
    check(&rt, body.again().bytes().len() == 1514);
    let mut out = [0xee; 1600];
    check(&rt, encode(&Rndis::Packet { body }, &mut out) == 1558);
    check(
        &rt,
        out[44..47] == [1, 2, 3] && out[1557..1559] == [3, 0xee],
    );
    let Ok(Rndis::Packet { body }) = decode(&out) else {
        panic!(rt; "another message")
    };
    check(&rt, body.bytes() == &out[44..1558]);
}

// A packet's bytes with another byte at a place, of which so many are given, are read or refused so.
fn faults(
    rt: &impl Abort,
    bytes: [u8; 1600],
    place: usize,
    value: u8,
    given: usize,
    want: Option<RndisFault>,
)
    requires place { place < 1600 }
    requires given { given ≤ 1600 }
{
    let mut bytes = bytes;
    bytes[place] = value;
    check(rt, decode(&bytes[..given]).err() == want);
}

// The faults of packets of 46 bytes with a buffer of 2, at the edges.
#[test]
fn refuses_by_the_first_cause(rt: HostRuntime) {
    let mut out = [0; 1600];
    let body = Small::of(&[7, 8]);
    check(&rt, encode(&Rndis::Packet { body }, &mut out) == 46);
    faults(&rt, out, 0, 1, 46, None);
    faults(&rt, out, 0, 1, 50, None);
    let short = RndisFault::Short { have: 7, need: 8 };
    faults(&rt, out, 0, 1, 7, Some(short));
    faults(&rt, out, 0, 9, 46, Some(RndisFault::Unknown { kind: 9 }));
    let short = RndisFault::Short { have: 43, need: 44 };
    faults(&rt, out, 4, 43, 46, Some(short));
    let short = RndisFault::Short { have: 45, need: 46 };
    faults(&rt, out, 0, 1, 45, Some(short));
    faults(&rt, out, 8, 35, 46, Some(field(FieldName::Offset, 35)));
    faults(&rt, out, 12, 3, 46, Some(field(FieldName::Length, 3)));
    // In 32 bits the end would wrap to byte 44.
    faults(&rt, out, 11, 0xff, 46, Some(field(FieldName::Length, 2)));
}

fn field(name: FieldName, value: u64) -> RndisFault {
    RndisFault::Field { name, value }
}
