//! The top call on worked inputs.
use crate::call::{
    answers, call_words, check_answers, check_refusals, end_of, outcome_of, sink_of,
};
use crate::check::check;
use crate::fault_tests::failing_source;
use bus_script::{ScriptFault, Why6};
use io_edge::NoGate;
use std::alloc::AllocGlobal;

const ONE_BEAT: &[u8] = b"offer hb hb\nbeat hb 41\n";

const ONE_BEAT_REPORT: &[u8] = b"2 done @0 seq 42\nend requests 1 done 1 rescinded 0\n";

const SCRIPTS: &[(&[u8], &[u8])] = &[
    (ONE_BEAT, ONE_BEAT_REPORT),
    (
        b"offer hb hb\nbeat hb 18446744073709551615\n",
        b"2 done @0 seq 0\nend requests 1 done 1 rescinded 0\n",
    ),
    (b"", b"end requests 0 done 0 rescinded 0\n"),
    (
        b"offer shutdown sd\ndown sd 0\ndown sd 4\ndown sd 6\n",
        b"2 done @0 status 0x00000000\n3 done @1 status 0x80004005\n4 done @2 status 0x80004005\nend requests 3 done 3 rescinded 0\n",
    ),
];

#[test]
fn scripts_run(rt: HostRuntime) {
    check_answers(&rt, b"run", SCRIPTS);
}

/// Three devices over three phases: a phase without lines, a close, and versions to agree on.
const THREE_DEVICES: &[u8] = b"contact 5.2 4.0
offer hb a
offer shutdown b
offer hb c
ring a 16
window c 2
beat a 1
down b 0
beat a 18446744073709551615
close b
phase
phase
down b 4
beat c 6
beat a 7
down b 1
";

const THREE_DEVICES_REPORT: &[u8] = b"1 version 4.0 tried 5.2 5.1 5.0 4.1 4.0
7 done @0 seq 2
8 done @0 status 0x00000000
9 done @1 seq 0
13 closed
14 done @0 seq 7
15 done @2 seq 8
16 closed
end requests 7 done 5 rescinded 0
";

const PHASES: &[(&[u8], &[u8])] = &[
    (THREE_DEVICES, THREE_DEVICES_REPORT),
    (
        b"contact 5.2 4.0",
        b"1 version 4.0 tried 5.2 5.1 5.0 4.1 4.0\nend requests 0 done 0 rescinded 0\n",
    ),
    (
        b"offer hb d0\nclose d0\nphase\nbeat d0 1\n",
        b"4 closed\nend requests 1 done 0 rescinded 0\n",
    ),
];

#[test]
fn devices_over_phases(rt: HostRuntime) {
    check_answers(&rt, b"run", PHASES);
}

// Of each channel its phase, its relid, its device, and how many packets the host sent.
const CHANNELS: &[(u32, u32, u32, usize)] = &[
    (0, 1, 0, 3),
    (0, 2, 1, 2),
    (2, 1, 0, 2),
    (2, 3, 2, 2),
];

#[test]
fn channels_of_phases(rt: HostRuntime) {
    let outcome = outcome_of(&rt, THREE_DEVICES);
    check(&rt, outcome.settled.len() == CHANNELS.len());
    for (run, wanted) in outcome.settled.iter().zip(CHANNELS) {
        let sent = run.settled.host_sent().len();
        check(&rt, (run.phase, run.relid, run.device, sent) == *wanted);
    }
    check(&rt, outcome.histories.len() == 3);
    drop(outcome);
}

const MESSAGES: &[(&[u8], &[u8])] = &[
    (
        b"0f000000000000000100000001000000\n0f0000000000000001000000010000\n0f00000000000000010000000100000000\n",
        b"1 VERSION_RESPONSE supported 1 state 0 conn 1\n2 short 15 need 16\n3 long 17\n",
    ),
    (b"1600000000000000030000000500000005\n", b"1 long 17\n"),
];

#[test]
fn messages_are_decoded(rt: HostRuntime) {
    check_answers(&rt, b"decode", MESSAGES);
}

const TRACES: &[(&[u8], &[u8])] = &[
    (
        b"call guest send 0000000200020006,0000000000000000\nstep guest load tohost.read 0\nstep guest store tohost.cell.0 0x0000000200020006\nstep guest store tohost.cell.8 0\nstep guest store tohost.cell.16 0\nstep guest store tohost.write 24\nstep guest load tohost.mask 1\n",
        b"run steps 6 guest 1 0 host 0 0\n",
    ),
    (
        b"call guest send 0000000200020006,0000000000000000\nstep guest load tohost.read 0\nstep guest store tohost.cell.0 0x0000000200020006\nstep guest store tohost.cell.8 0\nstep guest store tohost.cell.16 0\nstep guest store tohost.write 16\n",
        b"wrong 6 step\n",
    ),
    (
        b"call guest send 0000000200020006,0000000000000000\nstep guest load tohost.read 0\nstep guest store tohost.cell.0 0x0000000200020006\nstep guest store tohost.cell.8 0\nstep guest store tohost.cell.16 0\nstep guest store tohost.write 24\nstep guest load tohost.mask 0\n",
        b"wrong 7 value\n",
    ),
];

#[test]
fn traces_are_checked(rt: HostRuntime) {
    check_answers(&rt, b"trace", TRACES);
}

const WRONG_TRACES: &[(&[u8], u32, Why6)] = &[
    (b"call guest walk\n", 1, Why6::Form),
    (b"call guest take\nring 2\n", 2, Why6::Order),
];

const WRONG_SCRIPTS: &[(&[u8], u32, Why6)] = &[
    (b"beat hb 007", 1, Why6::Form),
    (
        b"offer hb hb\nbeat hb 18446744073709551616\n",
        2,
        Why6::Range,
    ),
    (b"offer shutdown sd\ndown sd 4294967296\n", 2, Why6::Range),
    (b"offer disk d 64 0\nwindow d 65\n", 2, Why6::Range),
    (b"offer disk a 64 4\n", 1, Why6::Range),
    (
        b"offer disk a 64 3\noffer disk b 64 3\noffer disk c 64 3\noffer disk e 64 3\noffer hb f\n",
        5,
        Why6::Limit,
    ),
    (b"offer disk a 64 16\n", 1, Why6::Limit),
    (b"offer disk d0 1099511627777 0\n", 1, Why6::Range),
    (
        b"offer disk d0 64 0\nwrite d0 0 8 11\nread d0 4 8\nread d0 0 9\n",
        4,
        Why6::Range,
    ),
    (
        b"offer disk d 64 0\nrescind d after 0 held\n",
        2,
        Why6::Range,
    ),
    (b"offer disk d 64 0\nbad d 64\n", 2, Why6::Range),
    (b"offer disk d 64 0\nbad d 6\nbad d 6\n", 3, Why6::Repeat),
];

const WRONG_MESSAGES: &[(&[u8], u32, Why6)] = &[(b"0f0\n", 1, Why6::Form)];

#[test]
fn wrong_inputs_are_refused(rt: HostRuntime) {
    check_refusals(&rt, b"run", WRONG_SCRIPTS);
    check_refusals(&rt, b"decode", WRONG_MESSAGES);
    check_refusals(&rt, b"trace", WRONG_TRACES);
    check(&rt, answers(&rt, b"walk", ONE_BEAT, 1, b""));
}

#[test]
fn a_run_shows_what_went_across(rt: HostRuntime) {
    let outcome = outcome_of(&rt, ONE_BEAT);
    check(&rt, outcome.histories.len() == 1);
    check(&rt, outcome.settled.len() == 1);
    let run = &outcome.settled[0];
    check(&rt, run.relid == 1);
    check(&rt, run.settled.host_sent().len() == 2);
    check(&rt, run.settled.guest_got().len() == 2);
    check(&rt, run.settled.guest_sent().len() == 2);
    check(&rt, run.settled.host_got().len() == 2);
    drop(outcome);
}

#[test]
fn a_byte_too_many(rt: HostRuntime) {
    let bytes = vec![in rt.alloc(); 35u8; 1_048_577].expect(&rt, "memory");
    let mut source = failing_source(&rt, &bytes, 1_048_578);
    let mut sink = sink_of(&rt);
    let (status, fault) = end_of(call_words(&rt, &[b"run"], &mut source, &mut sink, &NoGate));
    drop(source);
    drop(sink);
    drop(bytes);
    check(&rt, status == 2);
    let wanted = ScriptFault {
        line: 0,
        why: Why6::Limit,
    };
    check(&rt, fault == Some(wanted));
}

const DISKS: &[(&[u8], &[u8])] = &[
    (
        b"offer disk d0 64 0\ncapacity d0\nread d0 63 1\nread d0 63 2\nread d0 0 0\n",
        b"2 done @0 good 3x00+1x3f+2x00+1x02+1x00\n3 done @1 good 512x00\n4 done @2 check 5/21/00\n5 done @3 good\nend requests 4 done 4 rescinded 0\n",
    ),
    (
        b"offer disk d0 64 0\nbad d0 9\nwrite d0 3 1 5a\nread d0 3 1\nread d0 9 1\n",
        b"3 done @0 good\n4 done @1 good 512x5a\n5 done @2 check 3/11/00\nend requests 3 done 3 rescinded 0\n",
    ),
    (
        b"offer disk d0 64 0\nclose d0\nphase\nready d0\n",
        b"4 closed\nend requests 1 done 0 rescinded 0\n",
    ),
    (
        b"offer disk d0 64 0\nwindow d0 64\nwrite d0 0 4 01\nwrite d0 4 4 02\nwrite d0 8 4 03\nread d0 3 2\n",
        b"3 done @0 good\n4 done @1 good\n5 done @2 good\n6 done @3 good 512x01+512x02\nend requests 4 done 4 rescinded 0\n",
    ),
    (
        b"offer disk d0 64 0\nwrite d0 0 8 11\nread d0 4 8\n",
        b"2 done @0 good\n3 done @1 good 2048x11+2048x00\nend requests 2 done 2 rescinded 0\n",
    ),
    // Under one id, behind the write of a whole page, a read of one block gives that block alone.
    (
        b"offer disk d0 64 0\nwindow d0 1\nwrite d0 0 8 11\nwrite d0 9 1 22\nread d0 9 1\nread d0 8 1\n",
        b"3 done @0 good\n4 done @1 good\n5 done @2 good 512x22\n6 done @3 good 512x00\nend requests 4 done 4 rescinded 0\n",
    ),
];

#[test]
fn disks_are_read_and_written(rt: HostRuntime) {
    check_answers(&rt, b"run", DISKS);
}
