//! Networks: what their adapters answer, over phases and stops, and what goes across with it.
use crate::call::{check_answers, check_refusals, outcome_of};
use crate::check::check;
use bus_script::Why6;
use ring_core::Packets;
use std::alloc::AllocGlobal;
use std::process::Abort;
use std::sync::Wait;
use std::thread::Threads;
use vmbus_main::Outcome;

// Objects of the adapter, and a frame to all stations and one to another station.
const TWO_FRAMES: &[u8] = b"offer net n0 020000000001 0200000000fe
query n0 0x00010106
query n0 0x0001ffff
frame n0 ffffffffffff0200000000010800
frame n0 0200000000aa0200000000010800
";

const TWO_FRAMES_REPORT: &[u8] = b"2 done @0 status 0x00000000 1xdc+1x05+2x00
3 done @1 status 0xc00000bb
4 done @2 sent back 14 1x02+4x00+1x01+1x02+4x00+1xfe+1x08+1x00
5 done @3 sent
end requests 4 done 4 rescinded 0
";

const SCRIPTS: &[(&[u8], &[u8])] = &[
    (TWO_FRAMES, TWO_FRAMES_REPORT),
    // Each kind of request. A reset puts 0 in the packet filter.
    (
        b"offer net n 020000000001 0200000000FE
set n 0x0001010e 01000000
query n 0x0001010E
reset n
query n 0x0001010e
keep n
set n 0x0001010e 0102
set n 0x00010106 01
query n 0x01010101
",
        b"2 done @0 status 0x00000000
3 done @1 status 0x00000000 1x01+3x00
4 done @2 status 0x00000000
5 done @3 status 0x00000000 4x00
6 done @4 status 0x00000000
7 done @5 status 0xc0010015
8 done @6 status 0xc00000bb
9 done @7 status 0x00000000 1x02+4x00+1x01
end requests 8 done 8 rescinded 0
",
    ),
    // The adapter keeps its packet filter over phases.
    (
        b"offer net n 020000000001 0200000000fe
set n 0x0001010e 05000000
phase
query n 0x0001010e
close n
phase
keep n
",
        b"2 done @0 status 0x00000000
4 done @1 status 0x00000000 1x05+3x00
7 closed
end requests 3 done 2 rescinded 0
",
    ),
    // The answer to the last request is held.
    (
        b"offer net n0 020000000001 0200000000fe
frame n0 ffffffffffff0200000000010800
rescind n0 after 1 held
",
        b"2 rescinded @0
end requests 1 done 0 rescinded 1
",
    ),
    (
        b"offer net n 020000000001 0200000000fe
keep n
keep n
keep n
rescind n after 2 held
phase
keep n
",
        b"2 done @0 status 0x00000000
3 rescinded @1
4 rescinded unserved
7 gone
end requests 4 done 1 rescinded 2
",
    ),
    // It is rescinded before it serves anything.
    (
        b"offer net n 020000000001 0200000000fe
keep n
rescind n after 0
",
        b"2 rescinded unserved
end requests 1 done 0 rescinded 1
",
    ),
    // Devices of all kinds.
    (
        b"contact 5.2 5.2
offer hb hb
offer shutdown sd
offer disk d0 64 0
offer net n0 020000000001 0200000000fe
ring d0 2
window d0 8
beat hb 41
write d0 3 1 5a
read d0 3 1
query n0 0x00010106
frame n0 ffffffffffff0200000000010800
phase
down sd 0
",
        b"1 version 5.2 tried 5.2
8 done @0 seq 42
9 done @0 good
10 done @1 good 512x5a
11 done @0 status 0x00000000 1xdc+1x05+2x00
12 done @1 sent back 14 1x02+4x00+1x01+1x02+4x00+1xfe+1x08+1x00
14 done @0 status 0x00000000
end requests 6 done 6 rescinded 0
",
    ),
];

#[test]
fn networks_answer(rt: HostRuntime) {
    check_answers(&rt, b"run", SCRIPTS);
}

const WRONG: &[(&[u8], u32, Why6)] = &[
    (b"offer net n 02000000000 0200000000fe\n", 1, Why6::Form),
    (
        b"offer net n 020000000001 0200000000fe\nquery n 0X00010106\n",
        2,
        Why6::Form,
    ),
    (
        b"offer net n 020000000001 0200000000fe\nframe n 000000000000000000000000000\n",
        2,
        Why6::Form,
    ),
    (
        b"offer net n 020000000001 0200000000fe\nframe n 00000000000000000000000000\n",
        2,
        Why6::Range,
    ),
    (b"offer disk n 64 0\nkeep n\n", 2, Why6::UnknownName),
    (
        b"offer net n 020000000001 0200000000fe\nflush n\n",
        2,
        Why6::UnknownName,
    ),
];

#[test]
fn wrong_lines_are_refused(rt: HostRuntime) {
    check_refusals(&rt, b"run", WRONG);
}

// How many packets the guest and the host sent on the first channel.
fn counts(outcome: &Outcome) -> (usize, usize) {
    match outcome.settled.first() {
        Some(run) => (
            run.settled.guest_sent().len(),
            run.settled.host_sent().len(),
        ),
        None => (0, 0),
    }
}

#[test]
fn messages_come_back_and_are_completed(rt: HostRuntime) {
    let outcome = outcome_of(&rt, TWO_FRAMES);
    check(&rt, outcome.settled.len() == 1);
    check(&rt, outcome.histories.len() == 1);
    // An init, a version, two page lists, an initialize and four requests, and the completions of four messages: of the initialize, of two queries and of one frame.
    // The version has no completion.
    check(&rt, counts(&outcome) == (13, 12));
    drop(outcome);
}

// Whether the guest's messages name sections of these sizes, in order, and each went with as many page words.
fn has_sections(list: &Packets, sizes: &[u64]) -> bool {
    let mut next = 0;
    for i in 0..list.len() {
        let Some(packet) = list.get(i) else {
            return false;
        };
        let Some(words) = list.lent(i) else {
            return false;
        };
        if packet.len() != 7 || packet[0] % 0x1_0000 != 6 || packet[2] % 0x1_0000_0000 != 107 {
            continue;
        }
        if next >= sizes.len()
            || packet[3] / 0x1_0000_0000 != sizes[next]
            || words.len() as u64 != sizes[next].div_ceil(8)
        {
            return false;
        }
        next += 1;
    }
    next == sizes.len()
}

// Whether the host's messages name parts of the receive buffer of these sizes, in order, and each went with as many page words. Each packet has nine words.
fn has_parts(list: &Packets, sizes: &[u64]) -> bool {
    let mut next = 0;
    for i in 0..list.len() {
        let Some(packet) = list.get(i) else {
            return false;
        };
        let Some(words) = list.lent(i) else {
            return false;
        };
        if packet.is_empty() || packet[0] % 0x1_0000 != 7 {
            continue;
        }
        if packet.len() != 9
            || next >= sizes.len()
            || packet[3] % 0x1_0000_0000 != sizes[next]
            || words.len() as u64 != sizes[next].div_ceil(8)
        {
            return false;
        }
        next += 1;
    }
    next == sizes.len()
}

// An initialize, two queries and two frames stand in sections of the send buffer, and what comes back of them in parts of the receive buffer.
#[test]
fn messages_stand_in_pages(rt: HostRuntime) {
    let outcome = outcome_of(&rt, TWO_FRAMES);
    let Some(run) = outcome.settled.first() else {
        panic!(rt; "nothing was carried")
    };
    check(
        &rt,
        has_sections(run.settled.guest_sent(), &[24, 28, 28, 58, 58]),
    );
    check(&rt, has_parts(run.settled.host_sent(), &[52, 28, 24, 58]));
    drop(outcome);
}

const WINDOWS: &[&[u8]] = &[b"1", b"4", b"64"];

const OFFER: &[u8] = b"offer net n 020000000001 0200000000fe\nwindow n ";

const KEEP: &[u8] = b"\nkeep n";

const MANY: usize = 200;

// Many keepalives, of which so many are open at most.
fn keepalives(rt: &(impl Abort + AllocGlobal), window: &[u8]) -> Vec<u8> {
    let mut text = Vec::new(rt.alloc());
    text.extend_from_slice(OFFER).expect(rt, "memory");
    text.extend_from_slice(window).expect(rt, "memory");
    for _ in 0..MANY {
        text.extend_from_slice(KEEP).expect(rt, "memory");
    }
    text
}

// Whether this window lets all of them be answered, each by a message and a completion.
fn are_answered(rt: &(impl Threads + Wait + Sync + Abort + AllocGlobal), window: &[u8]) -> bool {
    let script = keepalives(rt, window);
    let outcome = outcome_of(rt, &script);
    let all = outcome.status == 0
        && outcome.settled.len() == 1
        && counts(&outcome) == (2 * MANY + 6, 2 * MANY + 5);
    drop(outcome);
    drop(script);
    all
}

#[test]
fn a_host_with_a_full_table_takes_completions(rt: HostRuntime) {
    for window in WINDOWS {
        check(&rt, are_answered(&rt, window));
    }
}
