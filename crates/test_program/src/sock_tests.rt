//! Sockets: what comes back, what the channel carried, and words that name none.
use crate::call::{answers_one, outcome_on, sink_of};
use crate::check::check;
use io_edge::NoGate;
use std::alloc::AllocGlobal;
use std::process::Abort;
use std::sync::Wait;
use std::thread::Threads;

// The input comes back over one channel, each of whose ends sent so many packets.
fn check_echo(
    rt: &(impl Threads + Wait + Sync + Abort + AllocGlobal),
    input: &[u8],
    packets: usize,
) {
    let mut sink = sink_of(rt);
    let words: [&[u8]; 2] = [b"sock", b"5"];
    let outcome = outcome_on(rt, &words, input, &mut sink, &NoGate);
    check(rt, outcome.status == 0 && sink.bytes() == input);
    check(
        rt,
        outcome.settled.len() == 1 && outcome.histories.is_empty(),
    );
    for run in outcome.settled.iter() {
        check(rt, (run.phase, run.relid, run.device) == (0, 1, 0));
        let sent = run.settled.guest_sent().len();
        let back = run.settled.host_sent().len();
        check(rt, (sent, back) == (packets, packets));
    }
    drop(outcome);
    drop(sink);
}

// Packets of 2,048, 2,048, 904 and 0 bytes.
#[test]
fn bytes_come_back(rt: HostRuntime) {
    check_echo(&rt, &[0x61; 5000], 4);
}

#[test]
fn nothing_comes_back(rt: HostRuntime) {
    check_echo(&rt, b"", 1);
}

const NO_PORT: &[[&[u8]; 2]] = &[
    [b"sock", b"007"],
    [b"sock", b"4294967296"],
    [b"sock", b"-5"],
];

#[test]
fn words_of_no_socket(rt: HostRuntime) {
    for words in NO_PORT {
        check(&rt, answers_one(&rt, words, b"in", &NoGate, 1, &[b""]));
    }
}
