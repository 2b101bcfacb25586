//! Two threads: a guest has at most a window of requests open, and a host answers each by a packet of three words. Where the ring is full a request is open, so an end waits for packets alone.
use crate::rest::rest;
use bench_end_loops::{ANSWER, Port, Sent, Took, Waiting, a_call};
use std::io;
use std::rt::Runtime;
use std::sync::Wait;
use std::thread::{Threads, join};
use std::time::Instant;

/// How many requests there are, and how many are open at most.
#[derive(Clone, Copy)]
pub(crate) struct Load {
    pub(crate) count: u64,
    pub(crate) window: u64,
    pub(crate) how: Waiting,
}

/// What came of a thread's part so far.
#[derive(Clone, Copy)]
pub(crate) struct Share {
    pub(crate) sent: u64,
    pub(crate) got: u64,
    /// How often it raised its peer's signal.
    pub(crate) raised: u64,
    /// The ring was full, and no packet came since.
    pub(crate) full: bool,
    /// A call was refused.
    pub(crate) over: bool,
}

impl Share {
    pub(crate) fn new() -> Share {
        Share {
            sent: 0,
            got: 0,
            raised: 0,
            full: false,
            over: false,
        }
    }

    // Sends a packet.
    fn send<P: Port>(&mut self, e: &mut P, p: &[u64]) {
        match e.send(p) {
            Sent::Quiet => self.sent = self.sent.wrapping_add(1),
            Sent::Raised => {
                self.sent = self.sent.wrapping_add(1);
                self.raised = self.raised.wrapping_add(1);
            }
            Sent::Full => self.full = true,
            Sent::Refused => self.over = true,
        }
    }

    // Takes a packet, or waits for one.
    fn take<R: Wait, P: Port>(&mut self, rt: &R, e: &mut P, how: Waiting) {
        self.full = false;
        match e.take() {
            Took::Quiet => self.got = self.got.wrapping_add(1),
            Took::Raised => {
                self.got = self.got.wrapping_add(1);
                self.raised = self.raised.wrapping_add(1);
            }
            Took::Empty => rest(rt, e, how),
            Took::Refused => self.over = true,
        }
    }

    // Whether one more request may be sent.
    fn may_ask(&self, load: Load) -> bool {
        !self.full && self.sent < load.count && self.sent.wrapping_sub(self.got) < load.window
    }
}

// The guest's part: sends the requests, and takes the answers.
fn ask<R: Wait, P: Port + Drop>(rt: &R, mut e: P, p: &[u64], load: Load) -> Share {
    let mut share = Share::new();
    for _ in rt.forever() {
        if share.over || share.got >= load.count {
            return share;
        }
        if share.may_ask(load) {
            share.send(&mut e, p);
        } else {
            share.take(rt, &mut e, load.how);
        }
    }
    unreachable!()
}

/// The host's part: takes the requests, and answers each. Where there is no room for an answer it waits for the guest's next packet.
pub(crate) fn serve<R: Wait, P: Port + Drop>(rt: &R, mut e: P, load: Load) -> Share {
    let mut share = Share::new();
    for _ in rt.forever() {
        if share.over || share.sent >= load.count {
            return share;
        }
        if share.sent < share.got && !share.full {
            share.send(&mut e, &ANSWER);
        } else {
            share.take(rt, &mut e, load.how);
        }
    }
    unreachable!()
}

/// The picoseconds a request of one round, and how many signals both threads raised. It is an error where a request wasn't answered.
pub(crate) fn round<R: Runtime + Threads + Wait + Sync, P: Port + Send + Drop>(
    rt: &R,
    guest: P,
    host: P,
    p: &[u64],
    load: Load,
) -> io::Result<(u128, u64)> {
    let start = Instant::now(rt);
    let (asked, served) = join(
        rt,
        move || ask(rt, guest, p, load),
        move || serve(rt, host, load),
    );
    let time = start?.elapsed(rt)?.as_nanos();
    let time = a_call(time, asked.got.min(served.got), load.count)?;
    Ok((time, asked.raised.wrapping_add(served.raised)))
}
