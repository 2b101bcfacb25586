//! Loads: their line, their words, and that they read nothing.
use crate::call::answers_one;
use crate::check::check;
use io_edge::NoGate;
use std::alloc::AllocGlobal;
use std::process::Abort;
use std::sync::Wait;
use std::thread::Threads;

// Whether a load ends with this status, and writes exactly this.
fn loads(
    rt: &(impl Threads + Wait + Sync + Abort + AllocGlobal),
    words: &[&[u8]],
    status: u8,
    output: &[u8],
) -> bool {
    answers_one(rt, words, b"wrong", &NoGate, status, &[output])
}

// 500 blocks of 512 bytes: the fills (3 + 7 * k) % 256 sum to 62,718.
#[test]
fn load_of_a_thousand(rt: HostRuntime) {
    let line = b"load requests 1000 done 1000 bytes 256000 sum 32111616\n";
    check(&rt, loads(&rt, &[b"load", b"3", b"1000"], 0, line));
    check(&rt, loads(&rt, &[b"load", b"3", b"1000"], 0, line));
}

#[test]
fn load_of_two(rt: HostRuntime) {
    let line = b"load requests 2 done 2 bytes 512 sum 130560\n";
    check(&rt, loads(&rt, &[b"load", b"4294967295", b"2"], 0, line));
}

const NO_COMMAND: &[[&[u8]; 3]] = &[
    [b"load", b"3", b"0"],
    [b"load", b"3", b"7"],
    [b"load", b"3", b"8194"],
    [b"load", b"03", b"8"],
    [b"load", b"-3", b"8"],
    [b"load", b"4294967296", b"8"],
    [b"run", b"3", b"8"],
];

#[test]
fn words_of_no_load(rt: HostRuntime) {
    for words in NO_COMMAND {
        check(&rt, loads(&rt, words, 1, b""));
    }
    check(&rt, loads(&rt, &[b"load", b"3"], 1, b""));
    check(&rt, loads(&rt, &[b"load", b"3", b"8", b"8"], 1, b""));
}
