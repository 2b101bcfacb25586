//! Disks with sub-channels: their channels in each phase, and requests that go to the channels in turn.
use crate::call::{answers_one, outcome_of};
use crate::check::check;
use io_edge::NoGate;
use std::alloc::AllocGlobal;
use std::process::Abort;
use std::sync::Wait;
use std::thread::Threads;

const TWO_CHANNELS: &[u8] = b"offer disk d0 64 1
write d0 0 1 07
phase
read d0 0 1
read d0 0 1
";

// Two channels serve the reads, so that either is first.
const TWO_CHANNELS_REPORTS: &[&[u8]] = &[
    b"2 done @0 good
4 done @1 good 512x07
5 done @2 good 512x07
end requests 3 done 3 rescinded 0
",
    b"2 done @0 good
4 done @2 good 512x07
5 done @1 good 512x07
end requests 3 done 3 rescinded 0
",
];

/// Each channel serves its first request, and the second ones stay.
const RESCINDED: &[u8] = b"offer disk d0 64 1
read d0 0 1
read d0 1 1
read d0 2 1
read d0 3 1
rescind d0 after 1
phase
flush d0
";

const RESCINDED_REPORTS: &[&[u8]] = &[
    b"2 done @0 good 512x00
3 done @1 good 512x00
4 rescinded unserved
5 rescinded unserved
8 gone
end requests 5 done 2 rescinded 2
",
    b"2 done @1 good 512x00
3 done @0 good 512x00
4 rescinded unserved
5 rescinded unserved
8 gone
end requests 5 done 2 rescinded 2
",
];

// Whether a script's report is one of these.
fn reports(
    rt: &(impl Threads + Wait + Sync + Abort + AllocGlobal),
    script: &[u8],
    wanted: &[&[u8]],
) -> bool {
    answers_one(rt, &[b"run"], script, &NoGate, 0, wanted)
}

#[test]
fn requests_of_two_channels(rt: HostRuntime) {
    check(&rt, reports(&rt, TWO_CHANNELS, TWO_CHANNELS_REPORTS));
    check(&rt, reports(&rt, RESCINDED, RESCINDED_REPORTS));
}

/// Two disks with sub-channels, and a heartbeat between them.
const THREE_DEVICES: &[u8] = b"offer disk a 64 1
offer hb b
offer disk c 64 2
read a 0 1
beat b 1
read c 0 1
phase
read c 0 1
phase
read a 0 1
close c
";

// Of each channel its phase, its relid and its device: in each phase sub-channels take the next relids.
const CHANNELS: &[(u32, u32, u32)] = &[
    (0, 1, 0),
    (0, 2, 1),
    (0, 3, 2),
    (0, 4, 0),
    (0, 5, 2),
    (0, 6, 2),
    (1, 3, 2),
    (1, 7, 2),
    (1, 8, 2),
    (2, 1, 0),
    (2, 3, 2),
    (2, 9, 0),
    (2, 10, 2),
    (2, 11, 2),
];

#[test]
fn sub_channels_of_phases(rt: HostRuntime) {
    let outcome = outcome_of(&rt, THREE_DEVICES);
    check(&rt, outcome.settled.len() == CHANNELS.len());
    for (run, wanted) in outcome.settled.iter().zip(CHANNELS) {
        check(&rt, (run.phase, run.relid, run.device) == *wanted);
    }
    check(&rt, outcome.histories.len() == 3);
    drop(outcome);
}
