//! The host of a socket: it sends back what it reads, piece by piece.
ghost use Rattle.std.specs.Prelude.{◌≡◌, ◌≤◌, ◌^◌, true, false, IfOk, None, Some, Option, List, ℕ};
ghost use Rattle.ring_seat.specs.Seats.{new_end};
ghost use Rattle.hv_sock.specs.Streams.{is_closed};
ghost use Rattle.ring_core.specs.Seen.{Seen};
ghost use Rattle.ring_seat.specs.declared.table_seat.TableSeat.{TableSeat as Seat};
ghost use Rattle.sock_workers.specs.Ports.{Goes};
ghost use Rattle.sock_workers.specs.Workers.{Causes, HostLeaves, IsLive, LeavesEnd, Looks, TakesSo, TurnCause, Turns, host_next, host_reads, is_none};

use crate::ended::{Ended, Turn};
use crate::port::{Found, PIECE, SockPort, Tried, need_for};
use ring_seat::HostEnd;
use std::alloc::AllocError;
use std::marker::Model;
use std::sync::Wait;

/// The host's worker of a socket. Contracts see its end, and the piece that it holds.
#[derive(Drop)]
pub struct SockHost {
    port: SockPort,
    // So many bytes at the front of the buffer were read and aren't sent back yet.
    held: Option<usize>,
    // The end of its direction was sent.
    shut: bool,
    // The end of the other direction was read.
    ended: bool,
    buffer: [u8; PIECE],
}

impl Model for SockHost {
    ghost use Rattle.std.specs.Prelude.{take};
    ghost use Rattle.std.specs.Option.{option_map};
    ghost use Rattle.sock_workers.specs.Workers.{Host, IsHost};

    ghost Value = { Host };

    ghost view = { λ w. record { port = w.port; held = option_map (λ n. take n w.buffer) w.held } };

    ghost invariant = { λ w. IsHost (record { port = w.port; held = option_map (λ n. take n w.buffer) w.held }) w.held w.shut w.ended };
}

/// What a host did: its end, and how it ended.
#[derive(Drop)]
pub struct HostDone {
    /// The end of the channel.
    pub end: HostEnd,
    /// How the worker ended.
    pub ended: Ended,
}

impl SockHost {
    /// A host over a new end. It makes room for so many packets each way, and takes all its memory here.
    pub fn make(end: HostEnd, packets: u64) -> Result<SockHost, AllocError>
        requires fresh { end.state ≡ new_end end.state.machine.cells end.state.machine.side }
        requires size { 512 ≤ end.state.machine.cells }
        requires few { packets ≤ 2 ^ 54 }
        ensures end { IfOk result (λ w. (w.port.end.state ≡ end.state) × (w.port.end.seat ≡ end.seat)) }
        ensures room { IfOk result (λ w. w.port.room ≡ packets) }
    {
        Ok(SockHost {
            port: SockPort::make(end, packets)?,
            held: None,
            shut: false,
            ended: false,
            buffer: [0; PIECE],
        })
    }

    // Reads the next piece, and holds it. None where nothing waits, while a piece is held, or where the end was read.
    fn take(&mut self) -> Option<Turn>
        requires live { IsLive self.old.port }
        requires awake { self.old.port.end.state.machine.asleep ≡ false }
        ensures takes { TakesSo result (host_reads self.old) self.old.port self.new.port }
        ensures none { result ≡ None → self.new.held ≡ self.old.held }
        ensures sent { self.new.port.end.state.sent ≡ self.old.port.end.state.sent }
        ensures awake { self.new.port.end.state.machine.asleep ≡ false }
        ensures goes { Goes self.old.port self.new.port }
    {
        if self.ended || self.held.is_some() {
            return None;
        }
        match self.port.read(&mut self.buffer) {
            Found::Bytes(n) => {
                self.held = Some(n);
                Some(Turn::Moved)
            }
            Found::End => {
                self.ended = true;
                Some(Turn::Moved)
            }
            Found::Nothing => None,
            Found::Fault(fault) => Some(Turn::Ended(Ended::Fault(fault))),
            Found::Room => Some(Turn::Ended(Ended::Room)),
        }
    }

    // A turn of an end that is awake and holds a piece: it sends that back, or rests.
    fn give_or_rest(&mut self) -> Turn
        requires live { IsLive self.old.port }
        requires awake { self.old.port.end.state.machine.asleep ≡ false }
        requires held { is_none self.old.held ≡ false }
        ensures turns { Turns result self.new.port }
        ensures cause { Causes result (host_reads self.old) (host_next self.old) self.old.port.end self.new.port.end }
        ensures goes { Goes self.old.port self.new.port }
    {
        let Some(n) = self.held else { unreachable!() };
        let piece = &self.buffer[..n];
        let need = need_for(piece.len());
        match self.port.write(piece) {
            Tried::Sent => {
                self.held = None;
                Turn::Moved
            }
            Tried::Room => Turn::Ended(Ended::Room),
            Tried::Full => self.port.rest(Some(need)),
        }
    }

    // A turn of an end that is awake and holds nothing, where nothing was taken: it ends its direction once the other one was read to its end, and then the
    // worker ends; or it rests.
    fn end_or_rest(&mut self) -> Turn
        requires live { IsLive self.old.port }
        requires awake { self.old.port.end.state.machine.asleep ≡ false }
        requires held { self.old.held ≡ None }
        ensures turns { Turns result self.new.port }
        ensures cause { (before : Seen Seat) → Looks (host_reads self.old) before self.old.port.end → before.state.sent ≡ self.old.port.end.state.sent → Causes result (host_reads self.old) (host_next self.old) before self.new.port.end }
        ensures goes { Goes self.old.port self.new.port }
    {
        if !self.ended {
            return self.port.rest(None);
        }
        if self.shut {
            return Turn::Ended(Ended::Marked);
        }
        match self.port.shut() {
            Tried::Sent => {
                self.shut = true;
                Turn::Moved
            }
            Tried::Room => Turn::Ended(Ended::Room),
            Tried::Full => self.port.rest(Some(need_for(0))),
        }
    }

    // A turn of an end that is awake.
    fn work(&mut self) -> Turn
        requires live { IsLive self.old.port }
        requires awake { self.old.port.end.state.machine.asleep ≡ false }
        ensures turns { Turns result self.new.port }
        ensures cause { Causes result (host_reads self.old) (host_next self.old) self.old.port.end self.new.port.end }
        ensures goes { Goes self.old.port self.new.port }
    {
        if let Some(turn) = self.take() {
            return turn;
        }
        if self.held.is_some() {
            self.give_or_rest()
        } else {
            self.end_or_rest()
        }
    }

    /// A turn: an end that is asleep polls its signal. Otherwise the host sends back the piece that it holds, or reads the next one; or ends its direction once
    /// the end of the other one was read; or ends; or rests.
    pub fn turn(&mut self) -> Turn
        requires live { IsLive self.old.port }
        ensures turns { Turns result self.new.port }
        ensures cause { TurnCause result (host_reads self.old) (host_next self.old) self.old.port self.new.port }
        ensures goes { Goes self.old.port self.new.port }
    {
        if self.port.is_asleep() {
            return self.port.poll();
        }
        self.work()
    }

    /// Says that it sends nothing more, and gives what it did.
    pub fn done(self, ended: Ended) -> HostDone
        requires awake { self.port.end.state.machine.asleep ≡ false }
        requires ended { LeavesEnd ended self.port.room self.port.end }
        ensures leaves { HostLeaves self result.ended result.end }
        ensures ended { result.ended ≡ ended }
    {
        let SockHost {
            port,
            held: _,
            shut: _,
            ended: _,
            buffer: _,
        } = self;
        HostDone {
            end: port.mark(),
            ended,
        }
    }

    /// Takes turns, and sleeps after a turn that found nothing to do, until the worker has ended.
    pub fn run<R: Wait>(mut self, rt: &R) -> HostDone
        requires live { IsLive self.port }
        ensures { HostLeaves self result.ended result.end }
    {
        for _ in rt.forever() {
            match self.turn() {
                Turn::Moved => {}
                Turn::Idle => self.port.sleep(rt),
                Turn::Ended(ended) => return self.done(ended),
            }
        }
        unreachable!()
    }
}
