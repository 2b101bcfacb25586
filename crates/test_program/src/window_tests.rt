//! Windows: a guest sends on before the first answer, and one report whatever the window and the ring's size.
use crate::call::{answers, answers_one};
use crate::check::check;
use crate::hold::{comes, note};
use io_edge::{Gate, Side};
use std::alloc::AllocGlobal;
use std::process::Abort;
use std::sync::Wait;
use std::sync::atomic::{AtomicU64, Ordering};
use std::thread::Threads;

/// Holds request 1 at the host until request 2 has come to the guest's gate, and the other way round. Each is noted before it is held.
#[derive(Drop)]
struct SendsOn {
    served: AtomicU64,
    sent: AtomicU64,
    failed: AtomicU64,
}

impl SendsOn {
    fn hold(&self, own: &AtomicU64, other: &AtomicU64) {
        note(own);
        if !comes(other) {
            note(&self.failed);
        }
    }
}

impl Gate for SendsOn {
    fn pass(&self, side: Side, _relid: u32, number: u32) {
        match (side, number) {
            (Side::Host, 1) => self.hold(&self.served, &self.sent),
            (Side::Guest, 2) => self.hold(&self.sent, &self.served),
            _ => {}
        }
    }
}

const TWO_READS: &[u8] = b"offer disk d0 64 0
read d0 0 1
read d0 1 1
";

const TWO_READS_REPORT: &[u8] = b"2 done @0 good 512x00
3 done @1 good 512x00
end requests 2 done 2 rescinded 0
";

#[test]
fn a_guest_sends_on_before_the_first_answer(rt: HostRuntime) {
    let gate = SendsOn {
        served: AtomicU64::new(0),
        sent: AtomicU64::new(0),
        failed: AtomicU64::new(0),
    };
    check(
        &rt,
        answers_one(&rt, &[b"run"], TWO_READS, &gate, 0, &[TWO_READS_REPORT]),
    );
    check(&rt, gate.served.load(Ordering::SeqCst) == 1);
    check(&rt, gate.sent.load(Ordering::SeqCst) == 1);
    check(&rt, gate.failed.load(Ordering::SeqCst) == 0);
}

/// A write of four blocks needs 2,136 of a page's 4,096 bytes, so that a ring of one page has room for one of them.
const REQUESTS: &[u8] = b"
write d 0 4 01
write d 4 4 02
write d 8 4 03
write d 12 4 04
read d 3 2
read d 10 4
flush d
write d 2 4 05
read d 0 4
";

const REPORT: &[u8] = b"4 done @0 good
5 done @1 good
6 done @2 good
7 done @3 good
8 done @4 good 512x01+512x02
9 done @5 good 1024x03+1024x04
10 done @6 good
11 done @7 good
12 done @8 good 1024x01+1024x05
end requests 9 done 9 rescinded 0
";

const WINDOWS: &[&[u8]] = &[b"1", b"2", b"4", b"16", b"64"];

const RINGS: &[&[u8]] = &[b"1", b"2", b"16"];

// The script, with so many pages a ring and so many open requests.
fn script_of(rt: &(impl Abort + AllocGlobal), pages: &[u8], window: &[u8]) -> Vec<u8> {
    let mut text = Vec::new(rt.alloc());
    let parts: [&[u8]; 5] = [
        b"offer disk d 64 0\nring d ",
        pages,
        b"\nwindow d ",
        window,
        REQUESTS,
    ];
    for part in parts {
        text.extend_from_slice(part).expect(rt, "memory");
    }
    text
}

// How many of the settings give the report.
fn same_reports(rt: &(impl Threads + Wait + Sync + Abort + AllocGlobal)) -> u32 {
    let mut same = 0u32;
    for pages in RINGS {
        for window in WINDOWS {
            let script = script_of(rt, pages, window);
            if answers(rt, b"run", &script, 0, REPORT) {
                same = same.wrapping_add(1);
            }
            drop(script);
        }
    }
    same
}

#[test]
fn windows_and_rings_of_any_size_give_one_report(rt: HostRuntime) {
    check(&rt, same_reports(&rt) == 15);
}
