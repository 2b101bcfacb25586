//! Steps that a recorder keeps.
ghost use Rattle.std.specs.Prelude.{◌≡◌, ◌<◌, ◌≤◌, false, IsTrue};

use crate::check::check;
use ring_core::{End, Op, Place, Ring, Room, Side, SoloMem, may_send};
use std::alloc::AllocGlobal;
use std::process::Abort;
use trace_check::{Verdict, check as verdict_on};
use trace_text::{Recorder, step_line};

const ZERO: &[u8] = b",0000000000000000";

// The guest's end over a recorder over memory of its own, with so many bytes for the text.
fn recorded(rt: &(impl Abort + AllocGlobal), size: usize) -> End<Recorder<SoloMem>> {
    let solo = SoloMem::make(rt.alloc(), 4096, 0).expect(rt, "memory");
    let recorder = Recorder::make(rt.alloc(), Side::Guest, solo, size).expect(rt, "memory");
    let mut e = End::make(rt.alloc(), Side::Guest, 4096, recorder, 0).expect(rt, "memory");
    let room = Room {
        packets: 1,
        words: 512,
    };
    e.reserve(room, room).expect(rt, "memory");
    e
}

// Sends an in-band packet of n words.
fn sends(rt: &(impl Abort + AllocGlobal), e: &mut End<Recorder<SoloMem>>, n: usize) {
    let mut packet = Vec::from_elem(rt.alloc(), 0u64, n).expect(rt, "memory");
    if n > 0 {
        packet[0] = (n as u64)
            .wrapping_mul(0x1_0000_0000)
            .wrapping_add(0x2_0006);
    }
    if may_send(e, &packet) {
        check(rt, e.send(&packet).is_ok());
    } else {
        check(rt, false);
    }
}

#[test]
fn recorded_send_is_a_run(rt: HostRuntime) {
    let mut e = recorded(&rt, 40_000);
    sends(&rt, &mut e, 510);
    check(&rt, !e.seat().full());
    let mut text = Vec::new(rt.alloc());
    text.extend_from_slice(b"call guest send 000001fe00020006")
        .expect(&rt, "memory");
    for _ in 0..509 {
        text.extend_from_slice(ZERO).expect(&rt, "memory");
    }
    text.extend_from_slice(b"\n").expect(&rt, "memory");
    text.extend_from_slice(e.seat().text())
        .expect(&rt, "memory");
    drop(e);
    match verdict_on(rt.alloc(), &text) {
        Ok(verdict) => check(
            &rt,
            verdict
                == Verdict::Run {
                    steps: 514,
                    guest_sent: 1,
                    guest_got: 0,
                    host_sent: 0,
                    host_got: 0,
                },
        ),
        Err(_) => check(&rt, false),
    }
}

#[test]
fn full_recorder_keeps_whole_lines(rt: HostRuntime) {
    let mut e = recorded(&rt, 113);
    sends(&rt, &mut e, 2);
    check(&rt, e.seat().full());
    check(
        &rt,
        e.seat().text()
            == b"step guest load tohost.read 0\nstep guest store tohost.cell.0 0x0000000200020006\nstep guest store tohost.cell.8 0\n".as_slice(),
    );
    drop(e);
    let mut e = recorded(&rt, 112);
    sends(&rt, &mut e, 2);
    check(&rt, e.seat().full());
    drop(e);
}

fn line_is(rt: &impl Abort, side: Side, op: Op, v: u64, wanted: &[u8]) {
    let line = step_line(side, op, v);
    check(rt, line.bytes() == wanted);
}

#[test]
fn steps_have_their_lines(rt: HostRuntime) {
    let pending = Op::Load(Place::Pending(Ring::ToGuest));
    line_is(
        &rt,
        Side::Host,
        pending,
        24,
        b"step host load toguest.pending 24\n",
    );
    let store = Op::Store(Place::Cell(Ring::ToHost, 4088), 0x1_0000_0000);
    line_is(
        &rt,
        Side::Guest,
        store,
        0,
        b"step guest store tohost.cell.4088 0x0000000100000000\n",
    );
    line_is(
        &rt,
        Side::Guest,
        Op::Raise(Side::Host),
        0,
        b"step guest raise host\n",
    );
    line_is(
        &rt,
        Side::Host,
        Op::TakeSignal(Side::Host),
        1,
        b"step host signal 1\n",
    );
    line_is(
        &rt,
        Side::Host,
        Op::StoreMark(Side::Host),
        0,
        b"step host store host.mark 1\n",
    );
}
