//! Workers on threads of their own: two guests that run at once, and one report whatever the threads' order.
use crate::call::{answers, answers_one};
use crate::check::check;
use crate::hold::{comes, note};
use io_edge::{Gate, Side};
use std::alloc::AllocGlobal;
use std::process::Abort;
use std::sync::Wait;
use std::sync::atomic::{AtomicU64, Ordering};
use std::thread::Threads;

// How many runs of the thousand each of four tests makes.
const RUNS: u32 = 250;

/// Holds the first request at the guests of relids 1 and 2, each until the other guest has come to its own.
#[derive(Drop)]
struct TwoGuests {
    first: AtomicU64,
    second: AtomicU64,
    failed: AtomicU64,
}

impl TwoGuests {
    fn hold(&self, own: &AtomicU64, other: &AtomicU64) {
        note(own);
        if !comes(other) {
            note(&self.failed);
        }
    }
}

impl Gate for TwoGuests {
    fn pass(&self, side: Side, relid: u32, number: u32) {
        match (side, relid, number) {
            (Side::Guest, 1, 1) => self.hold(&self.first, &self.second),
            (Side::Guest, 2, 1) => self.hold(&self.second, &self.first),
            _ => {}
        }
    }
}

const TWO_DISKS: &[u8] = b"offer disk a 64 0
offer disk b 64 0
read a 0 1
read a 0 1
read b 0 1
read b 0 1
";

const TWO_DISKS_REPORT: &[u8] = b"3 done @0 good 512x00
4 done @1 good 512x00
5 done @0 good 512x00
6 done @1 good 512x00
end requests 4 done 4 rescinded 0
";

#[test]
fn two_guests_run_at_once(rt: HostRuntime) {
    let gate = TwoGuests {
        first: AtomicU64::new(0),
        second: AtomicU64::new(0),
        failed: AtomicU64::new(0),
    };
    check(
        &rt,
        answers_one(&rt, &[b"run"], TWO_DISKS, &gate, 0, &[TWO_DISKS_REPORT]),
    );
    check(&rt, gate.first.load(Ordering::SeqCst) == 1);
    check(&rt, gate.second.load(Ordering::SeqCst) == 1);
    check(&rt, gate.failed.load(Ordering::SeqCst) == 0);
}

/// Sixteen channels at once, of each kind.
const SIXTEEN: &[u8] = b"offer disk a 64 0
offer disk b 64 0
offer disk c 64 0
offer disk d 64 0
offer disk e 64 0
offer disk f 64 0
offer disk g 64 0
offer disk h 64 0
offer hb i
offer hb j
offer hb k
offer hb l
offer shutdown m
offer shutdown n
offer shutdown o
offer shutdown p
write a 0 1 0a
read a 0 1
write b 1 1 0b
read b 1 1
write c 2 1 0c
read c 2 1
read d 63 2
flush e
ready f
read g 0 0
write h 0 1 ff
beat i 1
beat j 2
beat k 3
beat l 4
beat i 5
down m 0
down n 4
down o 1
down p 6
";

const SIXTEEN_REPORT: &[u8] = b"17 done @0 good
18 done @1 good 512x0a
19 done @0 good
20 done @1 good 512x0b
21 done @0 good
22 done @1 good 512x0c
23 done @0 check 5/21/00
24 done @0 good
25 done @0 good
26 done @0 good
27 done @0 good
28 done @0 seq 2
29 done @0 seq 3
30 done @0 seq 4
31 done @0 seq 5
32 done @1 seq 6
33 done @0 status 0x00000000
34 done @0 status 0x80004005
35 done @0 status 0x00000000
36 done @0 status 0x80004005
end requests 20 done 20 rescinded 0
";

// How many of the runs give the report.
fn same_reports(rt: &(impl Threads + Wait + Sync + Abort + AllocGlobal)) -> u32 {
    let mut same = 0u32;
    for _ in 0..RUNS {
        if answers(rt, b"run", SIXTEEN, 0, SIXTEEN_REPORT) {
            same = same.wrapping_add(1);
        }
    }
    same
}

#[test]
fn runs_1_to_250_give_one_report(rt: HostRuntime) {
    check(&rt, same_reports(&rt) == RUNS);
}

#[test]
fn runs_251_to_500_give_one_report(rt: HostRuntime) {
    check(&rt, same_reports(&rt) == RUNS);
}

#[test]
fn runs_501_to_750_give_one_report(rt: HostRuntime) {
    check(&rt, same_reports(&rt) == RUNS);
}

#[test]
fn runs_751_to_1000_give_one_report(rt: HostRuntime) {
    check(&rt, same_reports(&rt) == RUNS);
}
