//! The end that keeps each packet.
ghost use Rattle.std.specs.Prelude.{◌≡◌, true};
ghost use Rattle.ring_machine.specs.declared.machine.Stage.TheVariants.{Idle};

use crate::pair;
use bench_end_loops::{Port, Sent, Took};
use ring_core::{Armed, End, SendRefusal, Signalled, TakeRefusal, may_send, may_take};
use ring_seat::TableSeat;
use ring_sleep::Parks;
use std::alloc::{AllocError, Global};
use std::sync::Wait;

/// An end that keeps each packet that it sent or got.
#[derive(Drop)]
pub struct EndPort {
    end: End<TableSeat>,
    asleep: bool,
    ghost rests: { asleep ≡ true → (end.state.machine.stage ≡ Idle) × (end.state.machine.asleep ≡ true) },
}

impl EndPort {
    /// Over an end that is awake.
    pub(crate) fn of(end: End<TableSeat>) -> EndPort {
        EndPort { end, asleep: false }
    }
}

impl Port for EndPort {
    fn pair(alloc: Global, words: u64, count: u64) -> Result<(EndPort, EndPort), AllocError> {
        pair::touch(alloc, words, count)?;
        pair::roomy(alloc, words, count)
    }

    fn send(&mut self, p: &[u64]) -> Sent {
        if self.asleep {
            return Sent::Refused;
        }
        send(&mut self.end, p)
    }

    fn take(&mut self) -> Took {
        if self.asleep {
            return Took::Refused;
        }
        take(&mut self.end)
    }

    fn arm(&mut self) -> bool {
        if self.asleep || !self.end.is_ready() || self.end.is_due() {
            return false;
        }
        self.end.commit();
        let armed = self.end.arm(None);
        self.asleep = matches!(armed, Armed::Asleep);
        self.asleep
    }

    fn poll(&mut self) -> bool {
        if self.asleep && self.end.poll_signal() {
            self.asleep = false;
            return true;
        }
        false
    }

    fn park<R: Wait>(&self, rt: &R) {
        self.end.seat().park(rt);
    }
}

// Sends, where that may be done.
fn send(e: &mut End<TableSeat>, p: &[u64]) -> Sent {
    if !e.is_ready() || !may_send(e, p) {
        return Sent::Refused;
    }
    match e.send(p) {
        Ok(Signalled::Quiet) => Sent::Quiet,
        Ok(Signalled::Raised) => Sent::Raised,
        Err(SendRefusal::Full { .. }) => Sent::Full,
        Err(_) => Sent::Refused,
    }
}

// Takes, and gives the room back, where that may be done.
fn take(e: &mut End<TableSeat>) -> Took {
    if !may_take(e) {
        return Took::Refused;
    }
    match e.take_in() {
        Ok(()) => give_back(e),
        Err(TakeRefusal::Empty { .. }) => Took::Empty,
        Err(_) => Took::Refused,
    }
}

// Gives the room of a packet back.
fn give_back(e: &mut End<TableSeat>) -> Took {
    if !e.is_ready() || e.is_due() {
        return Took::Refused;
    }
    match e.commit() {
        Signalled::Quiet => Took::Quiet,
        Signalled::Raised => Took::Raised,
    }
}
