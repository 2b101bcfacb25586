//! A source that fails at each of its calls in turn, and a sink that does so.
use crate::call::{call_words, end_of, sink_of, source_of};
use crate::check::check;
use io_edge::{MemSink, MemSource, NoGate};
use std::alloc::AllocGlobal;
use std::process::Abort;
use std::sync::Wait;
use std::thread::Threads;

/// Each kind of device, in two phases.
const FOUR_DEVICES: &[u8] = b"contact 5.2 5.2
offer hb hb
offer shutdown sd
offer disk d0 64 0
offer net n0 020000000001 0200000000fe
ring d0 2
window d0 8
beat hb 41
write d0 3 1 5a
read d0 3 1
query n0 0x00010106
frame n0 ffffffffffff0200000000010800
phase
down sd 0
";

const FOUR_DEVICES_REPORT: &[u8] = b"1 version 5.2 tried 5.2
8 done @0 seq 42
9 done @0 good
10 done @1 good 512x5a
11 done @0 status 0x00000000 1xdc+1x05+2x00
12 done @1 sent back 14 1x02+4x00+1x01+1x02+4x00+1xfe+1x08+1x00
14 done @0 status 0x00000000
end requests 6 done 6 rescinded 0
";

// A call for each byte of the script, and one that finds its end.
const READS: u32 = 240;

// A call for each eight bytes of the report, and for what is left.
const WRITES: u32 = 32;

/// A source of these bytes that gives one at a time, and fails at one call.
pub(crate) fn failing_source(
    rt: &(impl Abort + AllocGlobal),
    bytes: &[u8],
    fails: u32,
) -> MemSource {
    let alloc = rt.alloc();
    let bytes = bytes.to_vec(alloc).expect(rt, "memory");
    MemSource::make(bytes, 1, [fails].to_vec(alloc).expect(rt, "memory"))
}

// A sink that takes eight bytes at a time, and fails at one call.
fn failing_sink(rt: &(impl Abort + AllocGlobal), fails: u32) -> MemSink {
    let alloc = rt.alloc();
    let fails = [fails].to_vec(alloc).expect(rt, "memory");
    MemSink::make(alloc, 1000, 8, fails).expect(rt, "memory")
}

// The status where reading fails at one call, and how many bytes are written.
fn read_fails(rt: &(impl Threads + Wait + Sync + Abort + AllocGlobal), fails: u32) -> (u8, usize) {
    let mut source = failing_source(rt, FOUR_DEVICES, fails);
    let mut sink = sink_of(rt);
    let (status, _) = end_of(call_words(rt, &[b"run"], &mut source, &mut sink, &NoGate));
    let written = sink.bytes().len();
    drop(source);
    drop(sink);
    (status, written)
}

// The status where writing fails at one call, and whether a front of the report is written, how long.
fn write_fails(
    rt: &(impl Threads + Wait + Sync + Abort + AllocGlobal),
    fails: u32,
) -> (u8, bool, usize) {
    let mut sink = failing_sink(rt, fails);
    let mut source = source_of(rt, FOUR_DEVICES);
    let (status, _) = end_of(call_words(rt, &[b"run"], &mut source, &mut sink, &NoGate));
    let written = sink.bytes();
    let ended = (
        status,
        FOUR_DEVICES_REPORT.starts_with(written),
        written.len(),
    );
    drop(source);
    drop(sink);
    ended
}

#[test]
fn a_source_fails_at_each_call(rt: HostRuntime) {
    for before in 0..READS {
        check(&rt, read_fails(&rt, before.wrapping_add(1)) == (3, 0));
    }
    let all = FOUR_DEVICES_REPORT.len();
    check(&rt, read_fails(&rt, READS.wrapping_add(1)) == (0, all));
}

#[test]
fn a_sink_fails_at_each_call(rt: HostRuntime) {
    for before in 0..WRITES {
        let written = (before as usize).wrapping_mul(8);
        check(
            &rt,
            write_fails(&rt, before.wrapping_add(1)) == (4, true, written),
        );
    }
    let all = (0, true, FOUR_DEVICES_REPORT.len());
    check(&rt, write_fails(&rt, WRITES.wrapping_add(1)) == all);
}
