//! Key-value exchange: what its service answers, over phases, beside other devices, and with a full pool.
use crate::call::{answers, check_answers};
use crate::check::check;
use script_text::push_decimal;
use std::alloc::AllocGlobal;
use std::process::Abort;

const SCRIPTS: &[(&[u8], &[u8])] = &[
    (
        b"offer kvp k
kvp k set 1 color blue
kvp k get 1 color
kvp k enum 1 0
kvp k enum 1 1
kvp k del 1 color
kvp k get 1 color
",
        b"2 done @0 status 0x00000000
3 done @1 status 0x00000000 value blue
4 done @2 status 0x00000000 key color value blue
5 done @3 status 0x80070103
6 done @4 status 0x00000000
7 done @5 status 0x80070103
end requests 6 done 6 rescinded 0
",
    ),
    // Pairs stand in order of their keys, a prefix first, whatever the order in which they were set; a value is replaced.
    (
        b"offer kvp k
window k 64
kvp k set 0 b 1
kvp k set 0 ab 2
kvp k set 0 a 3
kvp k set 0 B 4
kvp k set 0 ab 5
kvp k enum 0 0
kvp k enum 0 1
kvp k enum 0 2
kvp k enum 0 3
kvp k enum 0 4
kvp k del 0 a
kvp k del 0 a
kvp k enum 0 1
kvp k enum 1 0
",
        b"3 done @0 status 0x00000000
4 done @1 status 0x00000000
5 done @2 status 0x00000000
6 done @3 status 0x00000000
7 done @4 status 0x00000000
8 done @5 status 0x00000000 key B value 4
9 done @6 status 0x00000000 key a value 3
10 done @7 status 0x00000000 key ab value 5
11 done @8 status 0x00000000 key b value 1
12 done @9 status 0x80070103
13 done @10 status 0x00000000
14 done @11 status 0x80070103
15 done @12 status 0x00000000 key ab value 5
16 done @13 status 0x80070103
end requests 14 done 14 rescinded 0
",
    ),
    // A service keeps its pairs over phases, each pool its own, and is closed.
    (
        b"offer kvp k
offer kvp l
kvp k set 3 a 1
kvp k set 4 a 2
phase
kvp k get 3 a
kvp k get 4 a
kvp l get 3 a
close k
phase
kvp k get 3 a
kvp l enum 4 0
",
        b"3 done @0 status 0x00000000
4 done @1 status 0x00000000
6 done @2 status 0x00000000 value 1
7 done @3 status 0x00000000 value 2
8 done @0 status 0x80070103
11 closed
12 done @1 status 0x80070103
end requests 7 done 6 rescinded 0
",
    ),
    // Devices of all kinds.
    (
        b"contact 5.3 5.3
offer hb hb
offer shutdown sd
offer kvp k
offer disk d0 64 0
offer net n0 020000000001 0200000000fe
ring k 2
beat hb 41
kvp k set 2 a b
write d0 3 1 5a
read d0 3 1
query n0 0x00010106
modify k 1
phase
down sd 0
kvp k enum 2 0
rescind d0 after 0
ready d0
",
        b"1 version 5.3 tried 5.3
8 done @0 seq 42
9 done @0 status 0x00000000
10 done @0 good
11 done @1 good 512x5a
12 done @0 status 0x00000000 1xdc+1x05+2x00
13 modified 1
15 done @0 status 0x00000000
16 done @1 status 0x00000000 key a value b
18 rescinded unserved
end requests 8 done 7 rescinded 1
",
    ),
];

#[test]
fn pairs_are_exchanged(rt: HostRuntime) {
    check_answers(&rt, b"run", SCRIPTS);
}

// These bytes go at the end of a text.
fn push(rt: &impl Abort, text: &mut Vec<u8>, bytes: &[u8]) {
    text.extend_from_slice(bytes).expect(rt, "memory");
}

// So many sets of new keys in one pool, `k256` and so on, and then these lines.
fn sets_and(rt: &(impl Abort + AllocGlobal), count: u64, lines: &[u8]) -> Vec<u8> {
    let mut script = Vec::new(rt.alloc());
    push(rt, &mut script, b"offer kvp k\n");
    for i in 0..count {
        push(rt, &mut script, b"kvp k set 2 k");
        push_decimal(&mut script, 256 + (i & 255)).expect(rt, "memory");
        push(rt, &mut script, b" 1\n");
    }
    push(rt, &mut script, lines);
    script
}

// What comes of so many sets, and then these lines of a report.
fn done_and(rt: &(impl Abort + AllocGlobal), count: u64, lines: &[u8]) -> Vec<u8> {
    let mut report = Vec::new(rt.alloc());
    for i in 0..count {
        push_decimal(&mut report, 2 + (i & 255)).expect(rt, "memory");
        push(rt, &mut report, b" done @");
        push_decimal(&mut report, i).expect(rt, "memory");
        push(rt, &mut report, b" status 0x00000000\n");
    }
    push(rt, &mut report, lines);
    report
}

// A pool has 256 pairs. A 257th is refused and changes nothing, a value in it is replaced, and a place that gets free is taken.
#[test]
fn a_pool_is_full(rt: HostRuntime) {
    let script = sets_and(
        &rt,
        256,
        b"kvp k set 2 kx 2
kvp k get 2 kx
kvp k set 3 kx 3
kvp k set 2 k300 4
kvp k enum 2 44
kvp k enum 2 255
kvp k enum 2 256
kvp k del 2 k511
kvp k set 2 kx 5
kvp k enum 2 255
",
    );
    let report = done_and(
        &rt,
        256,
        b"258 done @256 status 0x80070070
259 done @257 status 0x80070103
260 done @258 status 0x00000000
261 done @259 status 0x00000000
262 done @260 status 0x00000000 key k300 value 4
263 done @261 status 0x00000000 key k511 value 1
264 done @262 status 0x80070103
265 done @263 status 0x00000000
266 done @264 status 0x00000000
267 done @265 status 0x00000000 key kx value 5
end requests 266 done 266 rescinded 0
",
    );
    check(&rt, answers(&rt, b"run", &script, 0, &report));
    drop(script);
    drop(report);
}

// A word that is one byte so often, and then these bytes.
fn repeated(rt: &impl Abort, text: &mut Vec<u8>, byte: u8, count: usize, more: &[u8]) {
    for _i in 0..count {
        text.push(byte).expect(rt, "memory");
    }
    push(rt, text, more);
}

// The longest key is set to the longest value.
fn longest_pair(rt: &(impl Abort + AllocGlobal)) -> Vec<u8> {
    let mut script = Vec::new(rt.alloc());
    push(rt, &mut script, b"offer kvp k\nkvp k set 0 ");
    repeated(rt, &mut script, b'~', 255, b" ");
    repeated(rt, &mut script, b'!', 1_023, b"\nkvp k enum 0 0\n");
    script
}

fn longest_report(rt: &(impl Abort + AllocGlobal)) -> Vec<u8> {
    let mut report = Vec::new(rt.alloc());
    push(
        rt,
        &mut report,
        b"2 done @0 status 0x00000000\n3 done @1 status 0x00000000 key ",
    );
    repeated(rt, &mut report, b'~', 255, b" value ");
    repeated(
        rt,
        &mut report,
        b'!',
        1_023,
        b"\nend requests 2 done 2 rescinded 0\n",
    );
    report
}

#[test]
fn the_longest_pair_is_told(rt: HostRuntime) {
    let script = longest_pair(&rt);
    let report = longest_report(&rt);
    check(&rt, answers(&rt, b"run", &script, 0, &report));
    drop(script);
    drop(report);
}
