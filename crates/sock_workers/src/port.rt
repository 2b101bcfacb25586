//! What the workers ask of an end of a socket on atomic words.
ghost use Rattle.std.specs.Prelude.{◌≡◌, ◌≤◌, ◌<◌, ◌+◌, ◌*◌, ◌^◌, ◌∷◌, [], true, false, length, IfOk, if◌then◌else◌};
ghost use Rattle.channel_trace.specs.declared.event.Event.TheVariants.{Marked as MarkedEvent};
ghost use Rattle.vm_page.specs.Words.{words_for};
ghost use Rattle.ring_seat.specs.Seats.{new_end};
ghost use Rattle.ring_seat.specs.Settling.{IsSameEnd};
ghost use Rattle.hv_sock.specs.Packets.{sock_packet};
ghost use Rattle.hv_sock.specs.Streams.{IsOpen, is_closed};
ghost use Rattle.ring_machine.specs.declared.machine.Ending.TheVariants.{FellAsleep, FoundWork};
ghost use Rattle.sock_workers.specs.Ports.{ArmedOnce, Finds, Goes, IsNeed, Polls, Rests, Tries, found_of, has_gone, tried_of};

use crate::ended::{Ended, Turn};
use hv_sock::{Got, SockEnd, SockFault};
use ring_core::{Armed, End, Room, SendRefusal, Signalled};
use ring_seat::TableSeat;
use std::alloc::AllocError;
use std::marker::Model;
use std::sync::Wait;

/// The bytes of a piece.
pub(crate) const PIECE: usize = 2_048;

/// What a read found.
#[derive(Clone, Copy)]
pub(crate) enum Found {
    /// So many bytes, at the front of the buffer.
    Bytes(usize),
    /// The end of the direction.
    End,
    /// Nothing waits.
    Nothing,
    /// A packet that is none of a socket's.
    Fault(SockFault),
    /// The list of what was got has no room.
    Room,
}

/// What became of a packet.
#[derive(Clone, Copy)]
pub(crate) enum Tried {
    /// It is on its way.
    Sent,
    /// The ring has too little room for it.
    Full,
    /// The list of what was sent has no room.
    Room,
}

/// An end of a socket as its worker uses it, with room for so many packets each way.
#[derive(Drop)]
pub(crate) struct SockPort {
    end: SockEnd<TableSeat>,
    room: u64,
    // An arm saw the other end's mark.
    seen: bool,
}

impl Model for SockPort {
    ghost use Rattle.sock_workers.specs.Ports.{IsPort, Port};

    ghost Value = { Port };

    ghost view = { λ p. record { end = p.end; room = p.room; seen = p.seen } };

    ghost invariant = { λ p. IsPort (record { end = p.end; room = p.room; seen = p.seen }) };
}

// What a read found, by its answer.
fn found_by(answer: Result<Got, SockFault>) -> Found
    ensures { result ≡ found_of answer }
{
    match answer {
        Ok(Got::Bytes(n)) => Found::Bytes(n),
        Ok(Got::End) => Found::End,
        Err(SockFault::Take(_)) => Found::Nothing,
        Err(fault) => Found::Fault(fault),
    }
}

// What became of a packet, by the answer of an end whose peer is one of this program's.
fn tried_by(answer: Result<Signalled, SendRefusal>) -> Tried
    ensures { result ≡ tried_of answer }
{
    match answer {
        Ok(_) => Tried::Sent,
        Err(_) => Tried::Full,
    }
}

/// The room in bytes that the packet of so many bytes needs, with its trailer.
pub(crate) fn need_for(len: usize) -> u32
    requires { len ≤ 2048 }
    ensures need { result ≡ 8 * (3 + words_for len) + 8 }
    ensures bounds { (24 ≤ result) × (result ≤ 2080) }
{
    8 * (3 + len.div_ceil(8) as u32) + 8
}

/// Whether the packet is on its way.
pub(crate) fn has_gone(tried: Tried) -> bool
    ensures { result ≡ has_gone tried }
{
    matches!(tried, Tried::Sent)
}

impl SockPort {
    /// A port over a new end, which makes room for so many packets each way, and of what comes for the words of a whole ring besides. It takes all its memory here.
    pub(crate) fn make(mut end: End<TableSeat>, packets: u64) -> Result<SockPort, AllocError>
        requires fresh { end.state ≡ new_end end.state.machine.cells end.state.machine.side }
        requires size { 512 ≤ end.state.machine.cells }
        requires few { packets ≤ 2 ^ 54 }
        ensures end { IfOk result (λ p. (p.end.state ≡ end.state) × (p.end.seat ≡ end.seat)) }
        ensures room { IfOk result (λ p. p.room ≡ packets) }
    {
        let words = 259 * packets;
        let sent = Room { packets, words };
        let got = Room {
            packets,
            words: words + u64::from(end.cells()),
        };
        end.reserve(sent, got)?;
        Ok(SockPort {
            end: SockEnd::make(end),
            room: packets,
            seen: false,
        })
    }

    /// Whether it sleeps until its signal is up.
    pub(crate) fn is_asleep(&self) -> bool
        ensures { result ≡ self.now.end.state.machine.asleep }
    {
        self.end.end().is_asleep()
    }

    /// Reads what comes next, where something does.
    pub(crate) fn read(&mut self, out: &mut [u8; PIECE]) -> Found
        requires awake { self.old.end.state.machine.asleep ≡ false }
        requires open { IsOpen self.old.end.state.got }
        ensures finds { Finds result self.old self.new out.new }
        ensures goes { Goes self.old self.new }
        ensures awake { self.new.end.state.machine.asleep ≡ false }
        ensures seen { self.new.seen ≡ self.old.seen }
        ensures sent { self.new.end.state.sent ≡ self.old.end.state.sent }
    {
        if !self.end.may_read() {
            return Found::Room;
        }
        found_by(self.end.read(out))
    }

    /// Sends a piece of 1 to 2,048 bytes.
    pub(crate) fn write(&mut self, bytes: &[u8]) -> Tried
        requires bytes { (1 ≤ length bytes.now) × (length bytes.now ≤ 2048) }
        requires awake { self.old.end.state.machine.asleep ≡ false }
        requires open { is_closed self.old.end.state.sent ≡ false }
        ensures tries { Tries result (sock_packet bytes.now) self.old self.new }
        ensures open { is_closed self.new.end.state.sent ≡ false }
        ensures goes { Goes self.old self.new }
        ensures awake { self.new.end.state.machine.asleep ≡ false }
        ensures seen { self.new.seen ≡ self.old.seen }
        ensures got { self.new.end.state.got ≡ self.old.end.state.got }
    {
        if !self.end.may_write(bytes.len()) {
            return Tried::Room;
        }
        tried_by(self.end.write(bytes))
    }

    /// Ends the direction.
    pub(crate) fn shut(&mut self) -> Tried
        requires awake { self.old.end.state.machine.asleep ≡ false }
        requires open { is_closed self.old.end.state.sent ≡ false }
        ensures tries { Tries result (sock_packet []) self.old self.new }
        ensures closed { is_closed self.new.end.state.sent ≡ has_gone result }
        ensures goes { Goes self.old self.new }
        ensures awake { self.new.end.state.machine.asleep ≡ false }
        ensures seen { self.new.seen ≡ self.old.seen }
        ensures got { self.new.end.state.got ≡ self.old.end.state.got }
    {
        if !self.end.may_shut() {
            return Tried::Room;
        }
        tried_by(self.end.shut())
    }

    // Arms, for so much room where there is a want, and keeps whether the other end's mark was seen. Says whether the end is asleep.
    fn arm(&mut self, want: Option<u32>) -> bool
        requires awake { self.old.end.state.machine.asleep ≡ false }
        requires want { IsNeed want }
        ensures armed { ArmedOnce want (if result then FellAsleep else FoundWork) self.old.end self.new.end }
        ensures asleep { self.new.end.state.machine.asleep ≡ result }
        ensures goes { Goes self.old self.new }
        ensures lists { (self.new.end.state.sent ≡ self.old.end.state.sent) × (self.new.end.state.got ≡ self.old.end.state.got) }
    {
        match self.end.arm(want) {
            Armed::Asleep => true,
            Armed::Work => {
                if self.end.end().saw_mark() {
                    self.seen = true;
                }
                false
            }
        }
    }

    /// Rests: once the other end's mark was seen the worker ends. Otherwise the end arms, and sleeps where its looks find nothing.
    pub(crate) fn rest(&mut self, want: Option<u32>) -> Turn
        requires awake { self.old.end.state.machine.asleep ≡ false }
        requires want { IsNeed want }
        ensures rests { Rests want result self.old self.new }
        ensures goes { Goes self.old self.new }
        ensures lists { (self.new.end.state.sent ≡ self.old.end.state.sent) × (self.new.end.state.got ≡ self.old.end.state.got) }
    {
        if self.seen {
            return Turn::Ended(Ended::PeerMarked);
        }
        if self.arm(want) {
            Turn::Idle
        } else {
            Turn::Moved
        }
    }

    /// A turn of an end that is asleep: it takes its signal, if that is up.
    pub(crate) fn poll(&mut self) -> Turn
        requires asleep { self.old.end.state.machine.asleep ≡ true }
        ensures polls { Polls result self.old self.new }
        ensures goes { Goes self.old self.new }
        ensures lists { (self.new.end.state.sent ≡ self.old.end.state.sent) × (self.new.end.state.got ≡ self.old.end.state.got) }
    {
        if self.end.poll_signal() {
            Turn::Moved
        } else {
            Turn::Idle
        }
    }

    /// Sleeps until the signal was up.
    pub(crate) fn sleep<R: Wait>(&mut self, rt: &R)
        requires asleep { self.old.end.state.machine.asleep ≡ true }
        ensures goes { Goes self.old self.new }
        ensures lists { (self.new.end.state.sent ≡ self.old.end.state.sent) × (self.new.end.state.got ≡ self.old.end.state.got) }
    {
        self.end.sleep(rt);
    }

    /// Says that this end sends nothing more, and gives it.
    pub(crate) fn mark(self) -> End<TableSeat>
        requires awake { self.end.state.machine.asleep ≡ false }
        ensures same { IsSameEnd self.end result }
        ensures lists { (result.state.sent ≡ self.end.state.sent) × (result.state.got ≡ self.end.state.got) }
        ensures past { result.state.past ≡ MarkedEvent ∷ self.end.state.past }
    {
        let SockPort {
            end,
            room: _,
            seen: _,
        } = self;
        let mut end = end.into_end();
        end.mark();
        end
    }
}
