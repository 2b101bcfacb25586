//! The guest of a socket: it sends its input in pieces, and keeps what comes back.
ghost use Rattle.std.specs.Prelude.{◌≡◌, ◌+◌, ◌*◌, ◌≤◌, true, false, length, IfOk, None};
ghost use Rattle.channel_trace.specs.Runs.{is_drained};
ghost use Rattle.ring_core.specs.Seen.{Seen};
ghost use Rattle.ring_seat.specs.Seats.{new_end};
ghost use Rattle.ring_seat.specs.declared.table_seat.TableSeat.{TableSeat as Seat};
ghost use Rattle.hv_sock.specs.Streams.{is_closed};
ghost use Rattle.sock_workers.specs.Pieces.{packets_for};
ghost use Rattle.sock_workers.specs.Ports.{Tries, has_gone};
ghost use Rattle.sock_workers.specs.Workers.{Causes, GuestGoes, GuestLeaves, IsLive, LeavesEnd, Looks, TakesSo, TurnCause, Turns, guest_next, guest_reads, packet_at};

use crate::ended::{Ended, Turn};
use crate::port::{Found, PIECE, SockPort, Tried, has_gone, need_for};
use ring_seat::GuestEnd;
use std::alloc::{AllocError, Global};
use std::marker::Model;
use std::sync::Wait;

/// The guest's worker of a socket. Contracts see its end, its input, how many bytes of that it sent, and what it kept.
#[derive(Drop)]
pub struct SockGuest {
    port: SockPort,
    input: Vec<u8>,
    // So many bytes of the input were sent.
    at: usize,
    // The end of its direction was sent.
    shut: bool,
    output: Vec<u8>,
    // The end of the other direction was read.
    ended: bool,
    buffer: [u8; PIECE],
}

impl Model for SockGuest {
    ghost use Rattle.std.specs.Prelude.{vec_capacity};
    ghost use Rattle.sock_workers.specs.Workers.{Guest, IsGuest};

    ghost Value = { Guest };

    ghost view = { λ w. record { port = w.port; input = w.input.items; at = w.at; output = w.output.items } };

    ghost invariant = { λ w. IsGuest (record { port = w.port; input = w.input.items; at = w.at; output = w.output.items }) w.shut w.ended (vec_capacity w.output) };
}

/// What a guest did: its end, what came back, and how it ended.
#[derive(Drop)]
pub struct GuestDone {
    /// The end of the channel.
    pub end: GuestEnd,
    /// What came back.
    pub output: Vec<u8>,
    /// How the worker ended.
    pub ended: Ended,
}

/// The packets of a stream of so many bytes, with the one that ends it.
pub fn packets_for(bytes: usize) -> u64
    ensures { result ≡ packets_for bytes }
{
    bytes.div_ceil(PIECE) as u64 + 1
}

impl SockGuest {
    /// A guest over a new end that is to send these bytes. It makes room for the packets of its input each way, and takes all its memory here.
    pub fn make(alloc: Global, end: GuestEnd, input: Vec<u8>) -> Result<SockGuest, AllocError>
        requires fresh { end.state ≡ new_end end.state.machine.cells end.state.machine.side }
        requires size { 512 ≤ end.state.machine.cells }
        ensures end { IfOk result (λ w. (w.port.end.state ≡ end.state) × (w.port.end.seat ≡ end.seat)) }
        ensures input { IfOk result (λ w. (w.input ≡ input.items) × (w.port.room ≡ packets_for (length input.items))) }
    {
        let output = Vec::with_capacity(alloc, input.len() + 2 * PIECE)?;
        let port = SockPort::make(end, packets_for(input.len()))?;
        Ok(SockGuest {
            port,
            input,
            at: 0,
            shut: false,
            output,
            ended: false,
            buffer: [0; PIECE],
        })
    }

    // Reads what comes next, and keeps it. None where nothing waits, or where the end was read.
    fn take(&mut self) -> Option<Turn>
        requires live { IsLive self.old.port }
        requires awake { self.old.port.end.state.machine.asleep ≡ false }
        ensures takes { TakesSo result (guest_reads self.old) self.old.port self.new.port }
        ensures same { (self.new.at ≡ self.old.at) × (self.new.port.end.state.sent ≡ self.old.port.end.state.sent) }
        ensures awake { self.new.port.end.state.machine.asleep ≡ false }
        ensures goes { GuestGoes self.old self.new }
    {
        if self.ended {
            return None;
        }
        if self.output.capacity() - self.output.len() < PIECE {
            return Some(Turn::Ended(Ended::Room));
        }
        match self.port.read(&mut self.buffer) {
            Found::Bytes(n) => {
                let _kept = self.output.extend_from_slice(&self.buffer[..n]);
                Some(Turn::Moved)
            }
            Found::End => {
                self.ended = true;
                Some(Turn::Moved)
            }
            Found::Nothing => None,
            Found::Fault(fault) => Some(Turn::Ended(Ended::Fault(fault))),
            Found::Room => Some(Turn::Ended(Ended::Room)),
        }
    }

    // Sends the next piece, or the end behind the last one.
    fn send(&mut self) -> Tried
        requires awake { self.old.port.end.state.machine.asleep ≡ false }
        requires open { is_closed self.old.port.end.state.sent ≡ false }
        ensures tries { Tries result (packet_at self.old) self.old.port self.new.port }
        ensures open { has_gone result ≡ false → is_closed self.new.port.end.state.sent ≡ false }
        ensures got { (self.new.port.end.state.got ≡ self.old.port.end.state.got) × (self.new.port.seen ≡ self.old.port.seen) }
        ensures at { has_gone result ≡ false → self.new.at ≡ self.old.at }
        ensures awake { self.new.port.end.state.machine.asleep ≡ false }
        ensures goes { GuestGoes self.old self.new }
    {
        if self.at == self.input.len() {
            let tried = self.port.shut();
            self.shut = has_gone(tried);
            return tried;
        }
        let rest = self.input.as_slice().split_at(self.at).1;
        let len = rest.len().min(PIECE);
        let tried = self.port.write(&rest[..len]);
        if has_gone(tried) {
            self.at += len;
        }
        tried
    }

    // The room in bytes that the next packet needs.
    fn need(&self) -> u32
        ensures need { result ≡ 8 * length (packet_at self.now) + 8 }
        ensures bounds { (24 ≤ result) × (result ≤ 2080) }
    {
        need_for((self.input.len() - self.at).min(PIECE))
    }

    // A turn of an end that is awake and sent the end of its direction, where nothing was taken.
    fn end_or_rest(&mut self) -> Turn
        requires live { IsLive self.old.port }
        requires awake { self.old.port.end.state.machine.asleep ≡ false }
        requires shut { is_closed self.old.port.end.state.sent ≡ true }
        requires drained { guest_reads self.old ≡ true → self.old.port.seen ≡ true → is_drained self.old.port.end.state.past ≡ true }
        ensures turns { Turns result self.new.port }
        ensures cause { (before : Seen Seat) → Looks (guest_reads self.old) before self.old.port.end → Causes result (guest_reads self.old) None before self.new.port.end }
        ensures goes { GuestGoes self.old self.new }
    {
        if self.ended {
            Turn::Ended(Ended::Marked)
        } else {
            self.port.rest(None)
        }
    }

    // A turn of an end that is awake and has something to send, where nothing was taken.
    fn send_or_rest(&mut self) -> Turn
        requires live { IsLive self.old.port }
        requires awake { self.old.port.end.state.machine.asleep ≡ false }
        requires open { is_closed self.old.port.end.state.sent ≡ false }
        ensures turns { Turns result self.new.port }
        ensures cause { (before : Seen Seat) → Looks (guest_reads self.old) before self.old.port.end → before.state.sent ≡ self.old.port.end.state.sent → Causes result (guest_reads self.old) (guest_next self.old) before self.new.port.end }
        ensures goes { GuestGoes self.old self.new }
    {
        match self.send() {
            Tried::Sent => Turn::Moved,
            Tried::Room => Turn::Ended(Ended::Room),
            Tried::Full => {
                let need = self.need();
                self.port.rest(Some(need))
            }
        }
    }

    // A turn of an end that is awake: it always takes what waits, before it sends or rests.
    fn work(&mut self) -> Turn
        requires live { IsLive self.old.port }
        requires awake { self.old.port.end.state.machine.asleep ≡ false }
        ensures turns { Turns result self.new.port }
        ensures cause { Causes result (guest_reads self.old) (guest_next self.old) self.old.port.end self.new.port.end }
        ensures goes { GuestGoes self.old self.new }
    {
        if let Some(turn) = self.take() {
            return turn;
        }
        if self.shut {
            self.end_or_rest()
        } else {
            self.send_or_rest()
        }
    }

    /// A turn: an end that is asleep polls its signal. Otherwise the guest reads what comes next; or sends the next piece, or the end behind the last one; or ends;
    /// or rests.
    pub fn turn(&mut self) -> Turn
        requires live { IsLive self.old.port }
        ensures turns { Turns result self.new.port }
        ensures cause { TurnCause result (guest_reads self.old) (guest_next self.old) self.old.port self.new.port }
        ensures goes { GuestGoes self.old self.new }
    {
        if self.port.is_asleep() {
            return self.port.poll();
        }
        self.work()
    }

    /// Says that it sends nothing more, and gives what it did.
    pub fn done(self, ended: Ended) -> GuestDone
        requires awake { self.port.end.state.machine.asleep ≡ false }
        requires ended { LeavesEnd ended self.port.room self.port.end }
        ensures leaves { GuestLeaves self result.ended result.output.items result.end }
        ensures ended { result.ended ≡ ended }
    {
        let SockGuest {
            port,
            input,
            at: _,
            shut: _,
            output,
            ended: _,
            buffer: _,
        } = self;
        drop(input);
        GuestDone {
            end: port.mark(),
            output,
            ended,
        }
    }

    /// Takes turns, and sleeps after a turn that found nothing to do, until the worker has ended.
    pub fn run<R: Wait>(mut self, rt: &R) -> GuestDone
        requires live { IsLive self.port }
        ensures { GuestLeaves self result.ended result.output.items result.end }
    {
        for _ in rt.forever() {
            match self.turn() {
                Turn::Moved => {}
                Turn::Idle => self.port.sleep(rt),
                Turn::Ended(ended) => return self.done(ended),
            }
        }
        unreachable!()
    }
}
