//! Runs that were worked out by hand, each reason against a line, and inputs that are no trace.
use crate::check::check;
use std::alloc::AllocGlobal;
use std::process::Abort;
use trace_check::{TraceFault, Verdict, WrongWhy, check as verdict_on, verdict_text};

const SEND: &[u8] =
    b"call guest send 0000000200020006,0000000000000000\nstep guest load tohost.read 0\nstep guest store tohost.cell.0 0x0000000200020006\nstep guest store tohost.cell.8 0\nstep guest store tohost.cell.16 0\nstep guest store tohost.write 24\nstep guest load tohost.mask 1\n";

const SHORT: &[u8] =
    b"call guest send 0000000200020006,0000000000000000\nstep guest load tohost.read 0\nstep guest store tohost.cell.0 0x0000000200020006\nstep guest store tohost.cell.8 0\nstep guest store tohost.cell.16 0\nstep guest store tohost.write 16\nstep guest load tohost.mask 1\n";

const UNMASKED: &[u8] =
    b"call guest send 0000000200020006,0000000000000000\nstep guest load tohost.read 0\nstep guest store tohost.cell.0 0x0000000200020006\nstep guest store tohost.cell.8 0\nstep guest store tohost.cell.16 0\nstep guest store tohost.write 24\nstep guest load tohost.mask 0\n";

// Two packets, the second of which wakes the host, and the guest's mark.
const BOTH: &[u8] =
    b"# the guest sends\nring 1\ncall guest send 0000000200020006,0000000000000000\nstep guest load tohost.read 0\nstep guest store tohost.cell.0 0x200020006\nstep guest store tohost.cell.8 0\nstep guest store tohost.cell.16 0\nstep guest store tohost.write 24\nstep guest load tohost.mask 1\n# the host takes, and falls asleep\ncall host take\nstep host load tohost.write 24\nstep host load tohost.cell.0 8590065670\nstep host load tohost.cell.8 0\ncall host commit\nstep host store tohost.read 24\nstep host load tohost.feature 1\nstep host load tohost.pending 0\ncall host arm\nstep host store tohost.mask 0\nstep host load tohost.write 24\nstep host load guest.mark 0\n\ncall guest send 0000000200020006,00000000000000FF\nstep guest load tohost.read 24\nstep guest store tohost.cell.24 0x200020006\nstep guest store tohost.cell.32 255\nstep guest store tohost.cell.40 0x1800000000\nstep guest store tohost.write 48\nstep guest load tohost.mask 0\nstep guest load tohost.read 24\nstep guest raise host\ncall host poll\nstep host signal 1\nstep host store tohost.mask 1\ncall host take\nstep host load tohost.write 48\nstep host load tohost.cell.24 0x200020006\nstep host load tohost.cell.32 0xff\ncall guest mark\nstep guest store guest.mark 1\nstep guest raise host\ncall host peer\nstep host load guest.mark 1\ncall host take\nstep host load tohost.write 48";

fn says(rt: &(impl Abort + AllocGlobal), bytes: &[u8], wanted: Verdict) {
    match verdict_on(rt.alloc(), bytes) {
        Ok(verdict) => check(rt, verdict == wanted),
        Err(_) => check(rt, false),
    }
}

fn wrong(rt: &(impl Abort + AllocGlobal), bytes: &[u8], line: u32, why: WrongWhy) {
    says(rt, bytes, Verdict::Wrong { line, why });
}

fn refused(rt: &(impl Abort + AllocGlobal), bytes: &[u8], wanted: u32, reason: u8) {
    match verdict_on(rt.alloc(), bytes) {
        Err(TraceFault::Form { line, why }) => check(rt, line == wanted && why == reason),
        _ => check(rt, false),
    }
}

fn run(steps: u32, guest_sent: u32, guest_got: u32, host_sent: u32, host_got: u32) -> Verdict {
    Verdict::Run {
        steps,
        guest_sent,
        guest_got,
        host_sent,
        host_got,
    }
}

#[test]
fn runs_are_runs(rt: HostRuntime) {
    says(&rt, b"", run(0, 0, 0, 0, 0));
    says(&rt, b"# nothing\n\n", run(0, 0, 0, 0, 0));
    says(&rt, SEND, run(6, 1, 0, 0, 0));
    says(&rt, BOTH, run(32, 2, 0, 0, 2));
    // A call may be under way at the end.
    says(&rt, b"ring 16\ncall host take", run(0, 0, 0, 0, 0));
}

#[test]
fn steps_are_held_against_words(rt: HostRuntime) {
    wrong(&rt, SHORT, 6, WrongWhy::Step);
    wrong(&rt, UNMASKED, 7, WrongWhy::Value);
    wrong(
        &rt,
        b"call guest take\nstep guest load toguest.write 8",
        2,
        WrongWhy::Value,
    );
    wrong(
        &rt,
        b"call guest take\nstep guest load tohost.write 0",
        2,
        WrongWhy::Step,
    );
    wrong(
        &rt,
        b"call guest take\nstep host load toguest.write 0",
        2,
        WrongWhy::Idle,
    );
    wrong(
        &rt,
        b"call guest mark\nstep guest store guest.mark 2",
        2,
        WrongWhy::Step,
    );
    wrong(
        &rt,
        b"call guest mark\nstep guest store host.mark 1",
        2,
        WrongWhy::Step,
    );
    wrong(&rt, b"step host load tohost.write 0", 1, WrongWhy::Idle);
    wrong(&rt, b"step guest raise host", 1, WrongWhy::Idle);
}

#[test]
fn calls_find_their_conditions(rt: HostRuntime) {
    wrong(&rt, b"call guest take\ncall guest take", 2, WrongWhy::Busy);
    wrong(&rt, b"call guest take\ncall guest poll", 2, WrongWhy::Busy);
    wrong(&rt, b"call guest poll", 1, WrongWhy::Condition);
    wrong(
        &rt,
        b"call guest send 0000000200020006",
        1,
        WrongWhy::Condition,
    );
    wrong(
        &rt,
        b"call guest send 0000000300020006,0000000000000000",
        1,
        WrongWhy::Condition,
    );
    wrong(&rt, b"call guest arm 0", 1, WrongWhy::Condition);
    wrong(&rt, b"call guest arm 23", 1, WrongWhy::Condition);
    wrong(&rt, b"call guest arm 4096", 1, WrongWhy::Condition);
    wrong(&rt, b"call guest arm 5000000000", 1, WrongWhy::Condition);
    says(&rt, b"ring 2\ncall guest arm 4096", run(0, 0, 0, 0, 0));
    wrong(
        &rt,
        b"call host mark\nstep host store host.mark 1\nstep host raise guest\ncall host take",
        4,
        WrongWhy::Condition,
    );
}

#[test]
fn no_trace_is_refused(rt: HostRuntime) {
    refused(&rt, b"run", 1, 1);
    refused(&rt, b"call guest", 1, 1);
    refused(&rt, b"call me take", 1, 1);
    refused(&rt, b"call guest take 1", 1, 1);
    refused(&rt, b"call guest send 02,03", 1, 1);
    refused(&rt, b"call guest send 0000000200020006,", 1, 1);
    refused(&rt, b"step guest load tohost.cell.04 0", 1, 1);
    refused(&rt, b"step guest load tohost.signal 0", 1, 1);
    refused(&rt, b"step guest load guest.signal 0", 1, 1);
    refused(&rt, b"step guest store tohost.write 0x", 1, 1);
    refused(
        &rt,
        b"step guest store tohost.write 0x00000000000000018",
        1,
        1,
    );
    refused(&rt, b"\tcall guest take", 1, 1);
    refused(&rt, b"step guest load tohost.cell.4 0", 1, 4);
    refused(&rt, b"step guest load tohost.cell.4096 0", 1, 4);
    refused(
        &rt,
        b"step guest store tohost.write 18446744073709551616",
        1,
        4,
    );
    refused(&rt, b"call guest arm 18446744073709551616", 1, 4);
    refused(&rt, b"ring 0", 1, 4);
    refused(&rt, b"ring 17", 1, 4);
    refused(&rt, b"call guest take\nring 2", 2, 6);
    refused(&rt, b"ring 2\nring 2", 2, 6);
    // A line in no form is told before one that goes on no run.
    refused(&rt, b"call guest poll\ncall guest poll 1", 2, 1);
}

#[test]
fn lines_are_counted(rt: HostRuntime) {
    let mut bytes = Vec::from_elem(rt.alloc(), b'\n', 20_000).expect(&rt, "memory");
    says(&rt, &bytes, run(0, 0, 0, 0, 0));
    bytes.push(b'\n').expect(&rt, "memory");
    refused(&rt, &bytes, 20_001, 5);
    let long = Vec::from_elem(rt.alloc(), b' ', 1_048_577).expect(&rt, "memory");
    refused(&rt, &long, 0, 5);
}

#[test]
fn verdicts_are_told(rt: HostRuntime) {
    let text = verdict_text(rt.alloc(), run(6, 1, 0, 0, 0)).expect(&rt, "memory");
    check(
        &rt,
        text.as_slice() == b"run steps 6 guest 1 0 host 0 0\n".as_slice(),
    );
    let text = verdict_text(
        rt.alloc(),
        Verdict::Wrong {
            line: 6,
            why: WrongWhy::Step,
        },
    )
    .expect(&rt, "memory");
    check(&rt, text.as_slice() == b"wrong 6 step\n".as_slice());
}
