//! Rescinds: which requests of a disk are done, served without an answer, unserved or gone, by where it stops.
use crate::call::answers;
use crate::check::check;
use std::alloc::AllocGlobal;
use std::process::Abort;
use std::sync::Wait;
use std::thread::Threads;

/// Where a disk stops: behind so many of its requests, the answer to the last one held or not.
#[derive(Clone, Copy)]
struct Stop {
    after: usize,
    // The same number as a digit.
    digit: &'static [u8],
    held: bool,
}

/// What becomes of a request.
#[derive(Clone, Copy)]
enum Fate {
    Done,
    Held,
    Unserved,
}

// The first requests are served, so many; of these the last one isn't answered where its answer is held.
fn fate_of(stop: Stop, place: usize) -> Fate {
    if place >= stop.after {
        return Fate::Unserved;
    }
    if stop.held && place + 1 == stop.after {
        return Fate::Held;
    }
    Fate::Done
}

const DIGITS: &[&[u8]] = &[b"0", b"1", b"2", b"3", b"4", b"5", b"6", b"7", b"8", b"9"];

const WINDOWS: &[&[u8]] = &[b"1", b"4", b"64"];

const READS: &[u8] = b"
read d 0 1
read d 1 1
read d 2 1
read d 3 1
read d 4 1
read d 5 1
read d 6 1
read d 7 1
rescind d after ";

// The numbers of these lines, and the serials that they have where they are served.
const NUMBERS: &[(&[u8], &[u8])] = &[
    (b"3", b"0"),
    (b"4", b"1"),
    (b"5", b"2"),
    (b"6", b"3"),
    (b"7", b"4"),
    (b"8", b"5"),
    (b"9", b"6"),
    (b"10", b"7"),
];

fn push(rt: &impl Abort, text: &mut Vec<u8>, parts: &[&[u8]]) {
    for part in parts {
        text.extend_from_slice(part).expect(rt, "memory");
    }
}

// Eight reads of a disk that stops, and a request in the phase behind it.
fn script_of(rt: &(impl Abort + AllocGlobal), window: &[u8], stop: Stop) -> Vec<u8> {
    let mut text = Vec::new(rt.alloc());
    push(rt, &mut text, &[b"offer disk d 64 0\nwindow d "]);
    text.extend_from_slice(window).expect(rt, "memory");
    push(rt, &mut text, &[READS, stop.digit]);
    if stop.held {
        push(rt, &mut text, &[b" held"]);
    }
    push(rt, &mut text, &[b"\nphase\ncapacity d\n"]);
    text
}

// The report that the table of outcomes gives.
fn report(rt: &(impl Abort + AllocGlobal), stop: Stop) -> Vec<u8> {
    let mut text = Vec::new(rt.alloc());
    let mut done = 0usize;
    for (place, (number, serial)) in NUMBERS.iter().enumerate() {
        match fate_of(stop, place) {
            Fate::Done => {
                done = done.wrapping_add(1);
                push(
                    rt,
                    &mut text,
                    &[number, b" done @", serial, b" good 512x00\n"],
                );
            }
            Fate::Held => push(rt, &mut text, &[number, b" rescinded @", serial, b"\n"]),
            Fate::Unserved => push(rt, &mut text, &[number, b" rescinded unserved\n"]),
        }
    }
    let most = NUMBERS.len();
    let done_digit = DIGITS.get(done).expect(rt, "a digit");
    let left_digit = DIGITS.get(most.saturating_sub(done)).expect(rt, "a digit");
    push(
        rt,
        &mut text,
        &[
            b"13 gone\nend requests 9 done ",
            done_digit,
            b" rescinded ",
            left_digit,
            b"\n",
        ],
    );
    text
}

// How many of the windows give the report.
fn same_reports(rt: &(impl Threads + Wait + Sync + Abort + AllocGlobal), stop: Stop) -> u32 {
    let wanted = report(rt, stop);
    let mut same = 0u32;
    for window in WINDOWS {
        let script = script_of(rt, window, stop);
        if answers(rt, b"run", &script, 0, &wanted) {
            same = same.wrapping_add(1);
        }
        drop(script);
    }
    drop(wanted);
    same
}

#[test]
fn a_disk_stops_anywhere(rt: HostRuntime) {
    for (after, digit) in DIGITS.iter().enumerate() {
        for held in [false, true] {
            if held && after == 0 {
                continue;
            }
            let stop = Stop { after, digit, held };
            check(&rt, same_reports(&rt, stop) == 3);
        }
    }
}

/// The first device is rescinded, the second one closed, the third one both, and the fourth one stays. What was rescinded is gone, also where it was closed too.
const MIXED: &[u8] = b"offer disk a 64 0
offer disk b 64 0
offer disk c 64 0
offer hb d
rescind a after 1 held
write a 0 1 07
read a 0 1
read b 0 1
close b
close c
rescind c after 0
ready c
beat d 1
phase
ready a
ready b
ready c
beat d 2
phase
close d
beat d 3
";

const MIXED_REPORT: &[u8] = b"6 rescinded @0
7 rescinded unserved
8 done @0 good 512x00
12 rescinded unserved
13 done @0 seq 2
15 gone
16 closed
17 gone
18 done @1 seq 3
21 done @2 seq 4
end requests 10 done 4 rescinded 3
";

#[test]
fn devices_end_in_one_phase(rt: HostRuntime) {
    check(&rt, answers(&rt, b"run", MIXED, 0, MIXED_REPORT));
}
