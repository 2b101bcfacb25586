//! The worker of the end that asks.
ghost use Rattle.std.specs.Prelude.{◌≡◌, ◌≢◌, ◌<◌, ◌≤◌, ◌+◌, [], ◌∷◌, ℕ, filter, length, replicate, slice_get, All, IsSome, Some, None, true, false, IfOk, count_by, is_some, vec_len, vec_capacity};
ghost use Rattle.channel_trace.specs.Runs.{got_of, sent_of, is_drained};
ghost use Rattle.channel_trace.specs.declared.event.Event.TheVariants.{Marked as MarkedEvent};
ghost use Rattle.channel_model.specs.Acks.{acks_for};
ghost use Rattle.ring_core.specs.Seen.{Seen};
ghost use Rattle.ring_machine.specs.Endings.{why_of};
ghost use Rattle.worker_port.specs.Tries.{FoundNone, MarkedOnce};
ghost use Rattle.channel_model.specs.Channel.{AskerBreaks};
ghost use Rattle.worker_port.specs.declared.ended.Ended.TheVariants.{Marked as MarkedEnd, PeerMarked as PeerMarkedEnd, Room as RoomEnd, Broken as BrokenEnd};
ghost use Rattle.worker_port.specs.Causes.{Arms, Polls};
ghost use Rattle.worker_port.specs.declared.found.Found.TheVariants.{Nothing as NothingFound, Broken as BrokenFound};
ghost use Rattle.worker_requester.specs.declared.requester.Asked.TheVariants.{Broken as BrokenAsked};
ghost use Rattle.worker_requester.specs.Causes.{AskCause, AskerActs, AsksOne, AsksOrArms};
ghost use Rattle.worker_port.specs.Line.{paged_end, line_of, past_as, CameNew, IsLine, Finds, BrokeFor, IsBroken, IsReady, IsSameEnd, HasTakeRoom, TookOne};
ghost use Rattle.worker_requester.specs.Asking.{FitsPages, AsksBy, AskTurns, AskedFrom, EndsAcked, EverTried, AckTried, HeldAcks, HeldTried, HoldTried, IsPaced, LeavesAcks, AskLacks, AskerLacks, AsksOn, AskEnds, Holds, HasAcked, HasMessage, HasOpen, HasSettled, StandsAsked, TurnTried, waits_under, want_by, AskedBy};
ghost use Rattle.worker_port.specs.Rooms.{AskedWithin, AskLacksFor, KeepsRoom, SaysWhy, broke, is_broken};
ghost use Rattle.txn_table.specs.Open.{HasNone};
ghost use Rattle.worker_port.specs.Homes.{HasHome};
ghost use Rattle.channel_model.specs.Amounts.{room_of};

use crate::came::{Came, came_before};
use crate::lists::Lists;
use crate::next::next_message;
use crate::settle::settle;
use channel_protocol::Protocol;
use io_edge::{Gate, Side};
use ring_core::End;
use ring_sleep::Parks;
use std::alloc::{AllocError, Global};
use std::marker::Model;
use std::sync::Wait;
use txn_table::TxnTable;
use worker_port::{ArmResult, Ended, Found, PacketBuffer, Port, Tried, Turn, room_of};

/// Why nothing more is sent.
#[derive(Clone, Copy, Debug, PartialEq, Eq)]
pub enum Blocked {
    /// All was sent, and a request is open.
    Done,
    /// No id is free.
    Place,
    /// An answer of the start-up is missing.
    Answer,
    /// What acknowledges a message needs so many bytes of room.
    Ack { need: u32 },
    /// The next request needs so many bytes of room.
    Room { need: u32 },
}

// What became of the packet that is sent next.
#[derive(Clone, Copy)]
enum Asked {
    Sent,
    Held(Blocked),
    // The list of what was sent has no room: this is what it has.
    Lacks { packets: u64, words: u64 },
    // The end is broken.
    Broken,
}

/// The worker of the end that asks: it asks all that its protocol has to ask, in order, reads the replies, and acknowledges the messages that come with them.
#[derive(Drop)]
pub struct Requester<T: Protocol, S: Parks> {
    protocol: T,
    port: Port<T, S>,
    table: TxnTable<u32>,
    next: u32,
    waiting: Option<u64>,
    // How many of the packets that came were looked at for messages.
    acked: usize,
    replies: Vec<T::Reply>,
    starts: u32,
    seen: bool,
    hold: Blocked,
    buffer: PacketBuffer,
    rescinded: Vec<u32>,
    // Whether the next request passed the gate.
    passed: bool,
    side: Side,
    relid: u32,
}

impl<T: Protocol, S: Parks> Model for Requester<T, S> {
    ghost use Rattle.std.specs.Prelude.{◌≡◌, ◌≤◌, ◌+◌, ◌-◌, false, length, count_by, is_some, vec_len, vec_capacity};
    ghost use Rattle.worker_requester.specs.Asking.{Asking, FitsPages, IsAsking, is_open_in, pending};
    ghost use Rattle.worker_port.specs.Homes.{HasHome};
    ghost use Rattle.worker_port.specs.Rooms.{KeepsRoom};
    ghost use Rattle.channel_model.specs.Amounts.{room_of};

    ghost Value = { Asking T S T.Reply };

    ghost view = { λ w. record { protocol = w.protocol; end = w.port; table = w.table; next = w.next; waiting = w.waiting; acked = w.acked; told = w.replies.items; starts = w.starts; seen = w.seen; hold = w.hold; relid = w.relid } };

    ghost invariant = { λ w. w.port.state.machine.marked ≡ false → record { pages : FitsPages (T.lends w.protocol) (length w.table) w.port.end.state; home : HasHome (is_open_in (T.format w.protocol) (T.asks w.protocol) w.port.state.past) w.port.end.state; live : IsAsking (T.format w.protocol) (T.asks w.protocol) (record { protocol = w.protocol; end = w.port; table = w.table; next = w.next; waiting = w.waiting; acked = w.acked; told = w.replies.items; starts = w.starts; seen = w.seen; hold = w.hold; relid = w.relid }); replies : vec_len w.replies + count_by is_some w.table + (length (T.asks w.protocol) - w.next) ≤ vec_capacity w.replies + pending w.waiting; spare : vec_len w.rescinded + length w.table ≤ vec_capacity w.rescinded; size : length w.table ≤ 64; room : KeepsRoom (room_of (T.besides w.protocol) (length (T.asks w.protocol))) w.port; side : w.side ≡ w.port.state.machine.side } };
}

/// What an asking worker gives once it has ended.
#[derive(Drop)]
pub struct RequesterDone<T: Protocol, S: Parks> {
    pub end: End<S>,
    pub ended: Ended,
    /// The replies to the requests of the script, in order.
    pub replies: Vec<T::Reply>,
}

impl<T: Protocol, S: Parks + Drop> Requester<T, S> {
    // Takes a packet, if one waits, and settles the request that it answers, if it is an answer. One to the request that isn't sent yet is dropped.
    fn take_one(&mut self) -> Found
        requires ready { IsReady self.old.end }
        requires room { HasTakeRoom self.old.end }
        ensures took { TookOne result self.old.end.state self.new.end.state }
        ensures drained { result ≡ NothingFound → self.old.seen ≡ true → is_drained self.new.end.state.past ≡ true }
        ensures seen { self.new.seen ≡ self.old.seen }
        ensures finds { Finds result self.new.end }
        ensures looked { result ≡ NothingFound → FoundNone S.told S.tale self.old.end.end self.new.end.end }
        ensures honest { is_some (S.told self.old.end.seat) ≡ true → result ≢ BrokenFound }
        ensures on { AsksOn S.channel S.told self.old self.new }
    {
        match self.port.take() {
            Found::Packet => {
                let packet = self.port.last();
                let words = self.port.last_words();
                if !self.protocol.is_answer(packet) {
                    return Found::Packet;
                }
                let id = self.protocol.id(packet);
                if is_waiting_under(self.waiting, id) {
                    return Found::Packet;
                }
                let before = came_before(&self.protocol, &self.port);
                settle(
                    &self.protocol,
                    &mut self.table,
                    &mut self.replies,
                    before,
                    Came { packet, words },
                );
                Found::Packet
            }
            Found::Nothing => Found::Nothing,
            Found::Broken => Found::Broken,
        }
    }

    // Passes over the packets that came and are no messages. Whether a message is left that is to be acknowledged.
    fn find_message(&mut self) -> bool
        requires ready { IsReady self.old.end }
        ensures message { result ≡ true → HasMessage (T.format self.new.protocol) self.new }
        ensures none { result ≡ false → HasAcked self.new }
        ensures left { result ≡ false → LeavesAcks (T.format self.new.protocol) self.new.end }
        ensures all { result ≡ false → acks_for (T.format self.new.protocol) (got_of self.new.end.state.past) ≡ filter (T.format self.new.protocol).is_ack (sent_of self.new.end.state.past) }
        ensures same { (self.new.end ≡ self.old.end) × (self.new.seen ≡ self.old.seen) }
        ensures on { AsksOn S.channel S.told self.old self.new }
    {
        self.acked = next_message(&self.protocol, &self.port, self.acked);
        self.acked < self.port.got_len()
    }

    // Acknowledges the message that is next.
    fn acknowledge(&mut self) -> Asked
        requires ready { IsReady self.old.end }
        requires message { HasMessage (T.format self.old.protocol) self.old }
        ensures asked { AskedBy (T.format self.new.protocol) (T.asks self.new.protocol) result self.new }
        ensures seen { self.new.seen ≡ self.old.seen }
        ensures left { HeldAcks (T.format self.new.protocol) result self.new.end }
        ensures tried { HeldTried S.told S.tale (T.format self.new.protocol) (T.asks self.new.protocol) result self.old.end.end self.new }
        ensures full { AckTried S.told S.tale (T.format self.new.protocol) result self.old.end.end self.new.end }
        ensures cause { AsksOne result self.old.end.state.past self.new.end }
        ensures stands { StandsAsked result self.new.end }
        ensures honest { is_some (S.told self.old.end.seat) ≡ true → result ≢ BrokenAsked }
        ensures on { AsksOn S.channel S.told self.old self.new }
    {
        let came = self.port.got_len();
        prove!(self.acked < came);
        self.buffer
            .write_ack(&self.protocol, self.port.got(self.acked));
        self.port.stands_on_pages();
        let packet = self.buffer.packet();
        if let Some(room) = self.port.lacks_send(packet) {
            return Asked::Lacks {
                packets: room.packets,
                words: room.words,
            };
        }
        match self.port.send(packet, &[]) {
            Tried::Sent => {
                self.acked += 1;
                Asked::Sent
            }
            Tried::Full => Asked::Held(Blocked::Ack {
                need: self.buffer.need(),
            }),
            Tried::Broken => Asked::Broken,
        }
    }

    // Gives the next request a free id.
    fn accept(&mut self) -> bool
        requires ready { IsReady self.old.end }
        requires next { self.old.next < length (T.asks self.old.protocol) }
        requires none { self.old.waiting ≡ None }
        requires alone { self.old.next ≤ self.old.starts → count_by is_some self.old.table ≡ 0 }
        requires answers { (a : T.Ask) → slice_get (T.asks self.old.protocol) self.old.next ≡ Some a → (T.format self.old.protocol).has_answer a ≡ true }
        ensures next { (self.new.next ≡ self.old.next) × (self.new.end ≡ self.old.end) × (self.new.seen ≡ self.old.seen) × (self.new.acked ≡ self.old.acked) }
        ensures waits { result ≡ true → (id : ℕ) × (self.new.waiting ≡ Some id) }
        ensures full { result ≡ false → (self.new.waiting ≡ None) × All IsSome self.new.table }
        ensures on { AsksOn S.channel S.told self.old self.new }
    {
        match self.table.accept(self.next) {
            Ok(id) => {
                self.waiting = Some(id);
                true
            }
            Err(_) => false,
        }
    }

    // Sends the next request, which stands under this id.
    fn send_waiting(&mut self, id: u64) -> Asked
        requires ready { IsReady self.old.end }
        requires next { self.old.next < length (T.asks self.old.protocol) }
        requires waits { self.old.waiting ≡ Some id }
        requires acked { HasAcked self.old }
        requires unseen { self.old.seen ≡ false }
        ensures asked { AskedBy (T.format self.new.protocol) (T.asks self.new.protocol) result self.new }
        ensures unseen { self.new.seen ≡ false }
        ensures tried { HeldTried S.told S.tale (T.format self.new.protocol) (T.asks self.new.protocol) result self.old.end.end self.new }
        ensures cause { AsksOne result self.old.end.state.past self.new.end }
        ensures stands { StandsAsked result self.new.end }
        ensures honest { is_some (S.told self.old.end.seat) ≡ true → result ≢ BrokenAsked }
        ensures on { AsksOn S.channel S.told self.old self.new }
    {
        let count = self.protocol.count();
        prove!(self.next < count);
        self.port.lends_what_is_closed();
        self.buffer.encode(&self.protocol, self.next, id);
        let packet = self.buffer.packet();
        let words = self.buffer.page();
        if let Some(room) = self.port.lacks_send(packet) {
            return Asked::Lacks {
                packets: room.packets,
                words: room.words,
            };
        }
        match self.port.send(packet, words) {
            Tried::Sent => {
                self.next += 1;
                self.waiting = None;
                self.passed = false;
                Asked::Sent
            }
            Tried::Full => Asked::Held(Blocked::Room {
                need: self.buffer.need(),
            }),
            Tried::Broken => Asked::Broken,
        }
    }

    // Sends the next request, which has no answer.
    fn send_unanswered(&mut self) -> Asked
        requires ready { IsReady self.old.end }
        requires next { self.old.next < length (T.asks self.old.protocol) }
        requires none { self.old.waiting ≡ None }
        requires alone { self.old.next ≤ self.old.starts → count_by is_some self.old.table ≡ 0 }
        requires acked { HasAcked self.old }
        requires unseen { self.old.seen ≡ false }
        requires answers { (a : T.Ask) → slice_get (T.asks self.old.protocol) self.old.next ≡ Some a → (T.format self.old.protocol).has_answer a ≡ false }
        ensures asked { AskedBy (T.format self.new.protocol) (T.asks self.new.protocol) result self.new }
        ensures unseen { self.new.seen ≡ false }
        ensures tried { HeldTried S.told S.tale (T.format self.new.protocol) (T.asks self.new.protocol) result self.old.end.end self.new }
        ensures cause { AsksOne result self.old.end.state.past self.new.end }
        ensures stands { StandsAsked result self.new.end }
        ensures honest { is_some (S.told self.old.end.seat) ≡ true → result ≢ BrokenAsked }
        ensures on { AsksOn S.channel S.told self.old self.new }
    {
        let count = self.protocol.count();
        prove!(self.next < count);
        self.port.stands_on_pages();
        self.buffer.encode(&self.protocol, self.next, 0);
        let packet = self.buffer.packet();
        let words = self.buffer.page();
        if let Some(room) = self.port.lacks_send(packet) {
            return Asked::Lacks {
                packets: room.packets,
                words: room.words,
            };
        }
        match self.port.send(packet, words) {
            Tried::Sent => {
                self.next += 1;
                self.passed = false;
                Asked::Sent
            }
            Tried::Full => Asked::Held(Blocked::Room {
                need: self.buffer.need(),
            }),
            Tried::Broken => Asked::Broken,
        }
    }

    // Whether there is more to ask.
    fn has_more(&self) -> bool
        requires unmarked { self.now.end.state.machine.marked ≡ false }
        ensures more { result ≡ true → self.now.next < length (T.asks self.now.protocol) }
        ensures done { result ≡ false → self.now.next ≡ length (T.asks self.now.protocol) }
    {
        self.next < self.protocol.count()
    }

    // Passes the gate before the next request, if it is one of the script and didn't yet.
    fn pass<G: Gate>(&mut self, gate: &G)
        ensures { self.new ≡ self.old }
    {
        if self.passed || self.next < self.starts {
            return;
        }
        self.passed = true;
        let number = (self.next - self.starts).wrapping_add(1);
        gate.pass(self.side, self.relid, number);
    }

    // Asks the next request. One of the start-up, and the first one of the script, waits while an answer of the start-up is missing.
    fn ask<G: Gate>(&mut self, gate: &G) -> Asked
        requires ready { IsReady self.old.end }
        requires unseen { self.old.seen ≡ false }
        requires acked { HasAcked self.old }
        requires open { HasOpen (T.asks self.old.protocol) self.old }
        ensures asked { AskedBy (T.format self.new.protocol) (T.asks self.new.protocol) result self.new }
        ensures unseen { self.new.seen ≡ false }
        ensures tried { HeldTried S.told S.tale (T.format self.new.protocol) (T.asks self.new.protocol) result self.old.end.end self.new }
        ensures cause { AsksOne result self.old.end.state.past self.new.end }
        ensures stands { StandsAsked result self.new.end }
        ensures honest { is_some (S.told self.old.end.seat) ≡ true → result ≢ BrokenAsked }
        ensures on { AsksOn S.channel S.told self.old self.new }
    {
        if !self.has_more() {
            return Asked::Held(Blocked::Done);
        }
        if let Some(id) = self.waiting {
            return self.send_waiting(id);
        }
        if self.next <= self.starts && self.table.count() > 0 {
            return Asked::Held(Blocked::Answer);
        }
        if !self.protocol.has_answer(self.next) {
            self.pass(gate);
            return self.send_unanswered();
        }
        if !self.accept() {
            return Asked::Held(Blocked::Place);
        }
        self.pass(gate);
        match self.waiting {
            Some(id) => self.send_waiting(id),
            None => unreachable!(),
        }
    }

    // Arms for the room that the next packet needs, and sleeps where nothing is to be done.
    fn arm_or_sleep(&mut self, hold: Blocked) -> Turn
        requires ready { IsReady self.old.end }
        requires unseen { self.old.seen ≡ false }
        requires holds { Holds (T.format self.old.protocol) (T.asks self.old.protocol) hold self.old }
        ensures turns { AskTurns (T.format self.new.protocol) (T.besides self.new.protocol) (T.asks self.new.protocol) result self.new }
        ensures cause { Arms result self.old.end.state.past self.new.end }
        ensures tried { (before looked : Seen S) → FoundNone S.told S.tale before looked → HoldTried S.told S.tale (T.format self.old.protocol) (T.asks self.old.protocol) hold looked self.old → TurnTried S.told S.tale (T.format self.new.protocol) (T.asks self.new.protocol) result before self.new }
        ensures honest { broke result ≡ false }
        ensures on { AsksOn S.channel S.told self.old self.new }
    {
        self.hold = hold;
        match self.port.arm(want_for(hold)) {
            ArmResult::Nothing => Turn::Idle,
            ArmResult::Work => Turn::Moved,
            ArmResult::Mark => {
                self.seen = true;
                Turn::Moved
            }
        }
    }

    // Whether all was asked and answered, once each message is acknowledged. Where all was asked and that isn't so, a request is open.
    fn is_settled(&self) -> bool
        requires acked { HasAcked self.now }
        ensures settled { result ≡ true → HasSettled (T.asks self.now.protocol) self.now }
        ensures open { result ≡ false → HasOpen (T.asks self.now.protocol) self.now }
    {
        self.next == self.protocol.count() && self.table.count() == 0
    }

    // Ends with all settled.
    fn finish(&mut self)
        requires ready { IsReady self.old.end }
        requires settled { HasSettled (T.asks self.old.protocol) self.old }
        requires unseen { self.old.seen ≡ false }
        ensures ends { AsksBy (T.format self.new.protocol) MarkedEnd (T.asks self.new.protocol) self.new.end.state.past self.new.told }
        ensures none { HasNone self.new.table }
        ensures sent { AskedWithin (T.format self.new.protocol) (length (T.asks self.new.protocol)) self.new.end.state.past }
        ensures paced { IsPaced (T.format self.new.protocol) self.new.starts (T.asks self.new.protocol) self.new.end.state.past }
        ensures ids { AskedFrom (T.format self.new.protocol) (length self.new.table) (T.asks self.new.protocol) self.new.end.state.past }
        ensures on { AsksOn S.channel S.told self.old self.new }
    {
        self.port.mark();
    }

    // Closes what is open, and ends after the other end.
    fn rescind_open(&mut self)
        requires ready { IsReady self.old.end }
        requires drained { is_drained self.old.end.state.past ≡ true }
        requires left { LeavesAcks (T.format self.old.protocol) self.old.end }
        ensures ends { AsksBy (T.format self.new.protocol) PeerMarkedEnd (T.asks self.new.protocol) self.new.end.state.past self.new.told }
        ensures none { HasNone self.new.table }
        ensures left { LeavesAcks (T.format self.new.protocol) self.new.end }
        ensures past { self.new.end.state.past ≡ MarkedEvent ∷ self.old.end.state.past }
        ensures once { MarkedOnce S.told S.tale self.old.end.end self.new.end.end }
        ensures sent { AskedWithin (T.format self.new.protocol) (length (T.asks self.new.protocol)) self.new.end.state.past }
        ensures paced { IsPaced (T.format self.new.protocol) self.new.starts (T.asks self.new.protocol) self.new.end.state.past }
        ensures ids { AskedFrom (T.format self.new.protocol) (length self.new.table) (T.asks self.new.protocol) self.new.end.state.past }
        ensures on { AsksOn S.channel S.told self.old self.new }
    {
        self.table.rescind_all(&mut self.rescinded);
        self.port.mark();
    }

    // A worker that lacks room gives what it has.
    fn out_of_room(&self, packets: u64, words: u64) -> Ended
        requires unmarked { self.now.end.state.machine.marked ≡ false }
        requires list { got_of self.now.end.state.past ≡ self.now.end.state.got }
        requires lacks { AskerLacks (T.format self.now.protocol) (T.asks self.now.protocol) packets words self.now }
        ensures room { result ≡ RoomEnd packets words 0 }
        ensures breaks { AskerBreaks (T.format self.now.protocol) (T.asks self.now.protocol) self.now.end.state.past self.now.told }
        ensures reserved { KeepsRoom (room_of (T.besides self.now.protocol) (length (T.asks self.now.protocol))) self.now.end }
        ensures over { AskLacksFor (T.format self.now.protocol) (T.besides self.now.protocol) (length (T.asks self.now.protocol)) (RoomEnd packets words 0) self.now.end.state.past }
        ensures sent { AskedWithin (T.format self.now.protocol) (length (T.asks self.now.protocol)) self.now.end.state.past }
        ensures paced { IsPaced (T.format self.now.protocol) self.now.starts (T.asks self.now.protocol) self.now.end.state.past }
        ensures ids { AskedFrom (T.format self.now.protocol) (length self.now.table) (T.asks self.now.protocol) self.now.end.state.past }
    {
        // For the proof: what a value keeps is known where the value is read.
        let _ = &self.next;
        Ended::Room {
            packets,
            words,
            left: 0,
        }
    }

    // A worker whose end is broken gives what it has, and says why that is so.
    fn broke_off(&self) -> Ended
        requires broken { IsBroken self.now.end }
        ensures how { result ≡ BrokenEnd (why_of self.now.end.state.machine) }
        ensures broken { BrokeFor (why_of self.now.end.state.machine) self.now.end }
        ensures breaks { AskerBreaks (T.format self.now.protocol) (T.asks self.now.protocol) self.now.end.state.past self.now.told }
        ensures sent { AskedWithin (T.format self.now.protocol) (length (T.asks self.now.protocol)) self.now.end.state.past }
        ensures paced { IsPaced (T.format self.now.protocol) self.now.starts (T.asks self.now.protocol) self.now.end.state.past }
        ensures ids { AskedFrom (T.format self.now.protocol) (length self.now.table) (T.asks self.now.protocol) self.now.end.state.past }
    {
        let why = self.port.why();
        Ended::Broken { why }
    }

    // Acknowledges the message that is next. Where the ring has no room for that it rests; once the other end's mark was seen, which makes no more room, it gives
    // up.
    fn acknowledge_next(&mut self, seen: bool) -> Turn
        requires ready { IsReady self.old.end }
        requires message { HasMessage (T.format self.old.protocol) self.old }
        requires seen { self.old.seen ≡ seen }
        requires drained { seen ≡ true → is_drained self.old.end.state.past ≡ true }
        ensures turns { AskTurns (T.format self.new.protocol) (T.besides self.new.protocol) (T.asks self.new.protocol) result self.new }
        ensures cause { AsksOrArms result self.old.end.state.past self.new.end }
        ensures tried { (before : Seen S) → FoundNone S.told S.tale before self.old.end.end → TurnTried S.told S.tale (T.format self.new.protocol) (T.asks self.new.protocol) result before self.new }
        ensures honest { is_some (S.told self.old.end.seat) ≡ true → broke result ≡ false }
        ensures on { AsksOn S.channel S.told self.old self.new }
    {
        match self.acknowledge() {
            Asked::Sent => Turn::Moved,
            Asked::Held(hold) => {
                if seen {
                    self.rescind_open();
                    return Turn::Ended(Ended::PeerMarked);
                }
                self.arm_or_sleep(hold)
            }
            Asked::Lacks { packets, words } => Turn::Ended(self.out_of_room(packets, words)),
            Asked::Broken => Turn::Ended(self.broke_off()),
        }
    }

    // Asks, or rests.
    fn ask_or_rest<G: Gate>(&mut self, gate: &G) -> Turn
        requires ready { IsReady self.old.end }
        requires unseen { self.old.seen ≡ false }
        requires acked { HasAcked self.old }
        requires open { HasOpen (T.asks self.old.protocol) self.old }
        ensures turns { AskTurns (T.format self.new.protocol) (T.besides self.new.protocol) (T.asks self.new.protocol) result self.new }
        ensures cause { AsksOrArms result self.old.end.state.past self.new.end }
        ensures tried { (before : Seen S) → FoundNone S.told S.tale before self.old.end.end → TurnTried S.told S.tale (T.format self.new.protocol) (T.asks self.new.protocol) result before self.new }
        ensures honest { is_some (S.told self.old.end.seat) ≡ true → broke result ≡ false }
        ensures on { AsksOn S.channel S.told self.old self.new }
    {
        match self.ask(gate) {
            Asked::Sent => Turn::Moved,
            Asked::Held(hold) => self.arm_or_sleep(hold),
            Asked::Lacks { packets, words } => Turn::Ended(self.out_of_room(packets, words)),
            Asked::Broken => Turn::Ended(self.broke_off()),
        }
    }

    // A turn of an end that is awake: it takes what comes. Where nothing comes it acknowledges the next message; once the other end's mark was seen it gives up,
    // with all settled it ends, and else it asks the next request. Or it rests.
    fn work<G: Gate>(&mut self, gate: &G) -> Turn
        requires ready { IsReady self.old.end }
        ensures turns { AskTurns (T.format self.new.protocol) (T.besides self.new.protocol) (T.asks self.new.protocol) result self.new }
        ensures cause { AskerActs result self.old.end.state.past self.new.end }
        ensures tried { TurnTried S.told S.tale (T.format self.new.protocol) (T.asks self.new.protocol) result self.old.end.end self.new }
        ensures honest { is_some (S.told self.old.end.seat) ≡ true → broke result ≡ false }
        ensures on { AsksOn S.channel S.told self.old self.new }
    {
        if let Some(room) = self.port.lacks_take() {
            return Turn::Ended(self.out_of_room(room.packets, room.words));
        }
        let seen = self.seen;
        match self.take_one() {
            Found::Packet => Turn::Moved,
            Found::Nothing => self.go_on(seen, gate),
            Found::Broken => Turn::Ended(self.broke_off()),
        }
    }

    // Where nothing comes it acknowledges the next message; once the other end's mark was seen it gives up, with all settled it ends, and else it asks the next
    // request. Or it rests.
    fn go_on<G: Gate>(&mut self, seen: bool, gate: &G) -> Turn
        requires ready { IsReady self.old.end }
        requires seen { self.old.seen ≡ seen }
        requires drained { seen ≡ true → is_drained self.old.end.state.past ≡ true }
        ensures turns { AskTurns (T.format self.new.protocol) (T.besides self.new.protocol) (T.asks self.new.protocol) result self.new }
        ensures cause { AsksOrArms result self.old.end.state.past self.new.end }
        ensures tried { (before : Seen S) → FoundNone S.told S.tale before self.old.end.end → TurnTried S.told S.tale (T.format self.new.protocol) (T.asks self.new.protocol) result before self.new }
        ensures honest { is_some (S.told self.old.end.seat) ≡ true → broke result ≡ false }
        ensures on { AsksOn S.channel S.told self.old self.new }
    {
        if self.find_message() {
            return self.acknowledge_next(seen);
        }
        if seen {
            self.rescind_open();
            return Turn::Ended(Ended::PeerMarked);
        }
        if self.is_settled() {
            self.finish();
            return Turn::Ended(Ended::Marked);
        }
        self.ask_or_rest(gate)
    }

    // A turn of an end that is asleep.
    fn poll_asleep(&mut self) -> Turn
        requires asleep { self.old.end.state.machine.asleep ≡ true }
        requires unmarked { self.old.end.state.machine.marked ≡ false }
        ensures turns { AskTurns (T.format self.new.protocol) (T.besides self.new.protocol) (T.asks self.new.protocol) result self.new }
        ensures cause { Polls S.told S.tale result self.old.end self.new.end }
        ensures honest { broke result ≡ false }
        ensures on { AsksOn S.channel S.told self.old self.new }
    {
        if self.port.poll() {
            return Turn::Moved;
        }
        Turn::Idle
    }

    /// A worker over a new end, that has at most `window` requests open. Where its packets lend data pages, the channel has at least one for each of them, and the end is
    /// the guest's; else the channel has none. It takes all its memory here: room for as many packets as it has asks, each way, and
    /// for as many messages and what acknowledges them, where there are messages.
    pub fn make(
        alloc: Global,
        protocol: T,
        end: End<S>,
        side: Side,
        relid: u32,
        window: u32,
    ) -> Result<Requester<T, S>, AllocError>
        requires window { (1 ≤ window) × (window ≤ 64) }
        requires fresh { end.state ≡ paged_end end.state.pages.count end.state.machine.cells end.state.machine.side }
        requires size { (512 ≤ end.state.machine.cells) × (end.state.machine.cells ≤ 16777216) }
        requires side { side ≡ end.state.machine.side }
        requires pages { FitsPages (T.lends protocol) window end.state }
        ensures protocol { IfOk result (λ w. w.protocol ≡ protocol) }
        ensures relid { IfOk result (λ w. w.relid ≡ relid) }
        ensures starts { IfOk result (λ w. w.starts ≡ T.starts protocol) }
        ensures window { IfOk result (λ w. length w.table ≡ window) }
        ensures end { IfOk result (λ w. (w.end.end.state ≡ end.state) × (w.end.end.seat ≡ end.seat) × (w.end.seat ≡ end.seat)) }
        ensures machine { IfOk result (λ w. w.end.state.machine ≡ end.state.machine) }
    {
        let count = protocol.count();
        let packets = room_of(protocol.besides(), count as u64);
        let port = match Port::with_room(end, packets) {
            Ok(port) => port,
            Err(refused) => {
                drop(protocol);
                return Err(refused);
            }
        };
        match Lists::make(alloc, count, window) {
            Ok(lists) => Ok(Requester::over(protocol, port, lists, side, relid)),
            Err(refused) => {
                drop(protocol);
                drop(port);
                Err(refused)
            }
        }
    }

    // A worker that has asked nothing, over a port with room and empty lists.
    fn over(
        protocol: T,
        port: Port<T, S>,
        lists: Lists<T::Reply>,
        side: Side,
        relid: u32,
    ) -> Requester<T, S>
        requires fresh { (port.state.past ≡ []) × (port.state.got ≡ []) × (port.state.machine.asleep ≡ false) }
        requires side { side ≡ port.state.machine.side }
        requires pages { FitsPages (T.lends protocol) (length lists.table) port.end.state }
        requires home { HasHome (λ t. false) port.end.state }
        requires room { KeepsRoom (room_of (T.besides protocol) (length (T.asks protocol))) port }
        requires window { (window : ℕ) × (window ≤ 64) × (lists.table ≡ replicate window None) }
        requires none { lists.replies.items ≡ [] }
        requires replies { (vec_len lists.replies ≡ 0) × (length (T.asks protocol) ≤ vec_capacity lists.replies) }
        requires rescinded { (vec_len lists.rescinded ≡ 0) × (64 ≤ vec_capacity lists.rescinded) }
        ensures protocol { (result.protocol ≡ protocol) × (result.relid ≡ relid) × (result.starts ≡ T.starts protocol) }
        ensures parts { (result.end ≡ port) × (result.table ≡ lists.table) }
    {
        let starts = protocol.starts();
        let Lists {
            table,
            replies,
            rescinded,
            buffer,
        } = lists;
        Requester {
            protocol,
            port,
            table,
            next: 0,
            waiting: None,
            acked: 0,
            replies,
            starts,
            seen: false,
            hold: Blocked::Done,
            buffer,
            rescinded,
            passed: false,
            side,
            relid,
        }
    }

    /// A turn: an end that is asleep polls its signal. Otherwise the worker takes a packet, asks the next request, ends, or rests. It waits for nobody, and comes back
    /// whatever stands in the channel's words.
    pub fn turn<G: Gate>(&mut self, gate: &G) -> Turn
        requires unmarked { self.old.end.state.machine.marked ≡ false }
        ensures turns { AskTurns (T.format self.new.protocol) (T.besides self.new.protocol) (T.asks self.new.protocol) result self.new }
        ensures cause { AskCause S.told S.tale result self.old.end self.new.end }
        ensures tried { self.old.end.state.machine.asleep ≡ false → TurnTried S.told S.tale (T.format self.new.protocol) (T.asks self.new.protocol) result self.old.end.end self.new }
        ensures room { AskEnds (T.format self.new.protocol) (T.besides self.new.protocol) self.new.starts (length self.new.table) (T.asks self.new.protocol) result self.new.end.state.past }
        ensures honest { is_some (S.told self.old.end.seat) ≡ true → broke result ≡ false }
        ensures on { AsksOn S.channel S.told self.old self.new }
    {
        if self.port.is_asleep() {
            return self.poll_asleep();
        }
        if self.port.is_broken() {
            return Turn::Ended(self.broke_off());
        }
        self.work(gate)
    }

    /// A law of a worker that hasn't ended, which does nothing: what it sent so far are at most its asks and one acknowledgement for each message, each
    /// request before the other end's mark was seen, and under an id that was free.
    pub fn sends_so_far(&self)
        requires unmarked { self.now.end.state.machine.marked ≡ false }
        ensures sent { AskedWithin (T.format self.now.protocol) (length (T.asks self.now.protocol)) self.now.end.state.past }
        ensures paced { IsPaced (T.format self.now.protocol) self.now.starts (T.asks self.now.protocol) self.now.end.state.past }
        ensures ids { AskedFrom (T.format self.now.protocol) (length self.now.table) (T.asks self.now.protocol) self.now.end.state.past }
    {
        // For the proof: what a value keeps is known where the value is read.
        let _ = &self.next;
    }

    /// A law, and the call does nothing: whatever its peer wrote, the end came from a new one by whole calls alone, and knows of the channel what their steps answered.
    pub fn comes_by_calls(&self)
        ensures { CameNew S.tale self.now.end.end }
    {
        self.port.comes_by_calls();
    }

    // Sleeps until the signal was up.
    fn sleep<R: Wait>(&mut self, rt: &R)
        requires asleep { self.old.end.state.machine.asleep ≡ true }
        requires unmarked { self.old.end.state.machine.marked ≡ false }
        ensures unmarked { self.new.end.state.machine.marked ≡ false }
        ensures on { AsksOn S.channel S.told self.old self.new }
    {
        self.port.sleep(rt);
    }

    /// Gives what it did, once it has ended.
    pub fn done(self, ended: Ended) -> RequesterDone<T, S>
        requires { AsksBy (T.format self.protocol) ended (T.asks self.protocol) self.end.state.past self.told }
        ensures ends { AsksBy (T.format self.protocol) result.ended (T.asks self.protocol) (past_as T.said result.end.state) result.replies.items }
        ensures same { (result.ended ≡ ended) × (result.end ≡ self.end.end) }
        ensures past { self.end.state.past ≡ past_as T.said result.end.state }
        ensures line { self.end ≡ line_of T.said result.end }
        ensures stands { IsLine S.told result.end }
        ensures came { CameNew S.tale result.end }
    {
        let Requester {
            protocol,
            port,
            table,
            next: _,
            waiting: _,
            acked: _,
            replies,
            starts: _,
            seen: _,
            hold: _,
            buffer,
            rescinded,
            passed: _,
            side: _,
            relid: _,
        } = self;
        drop(protocol);
        drop(table);
        drop(buffer);
        drop(rescinded);
        RequesterDone {
            end: port.into_end(),
            ended,
            replies,
        }
    }

    /// Takes turns, and sleeps after a turn that found nothing to do, until the worker has ended.
    pub fn run<R: Wait, G: Gate>(mut self, rt: &R, gate: &G) -> RequesterDone<T, S>
        requires unmarked { self.end.state.machine.marked ≡ false }
        ensures ends { AsksBy (T.format self.protocol) result.ended (T.asks self.protocol) (past_as T.said result.end.state) result.replies.items }
        ensures end { IsSameEnd S.channel self.end.end result.end }
        ensures stands { IsLine S.told result.end }
        ensures came { CameNew S.tale result.end }
        ensures honest { is_some (S.told self.end.seat) ≡ true → is_broken result.ended ≡ false }
        ensures broken { SaysWhy result.ended (line_of T.said result.end) }
        ensures sent { AskedWithin (T.format self.protocol) (length (T.asks self.protocol)) (past_as T.said result.end.state) }
        ensures room { AskLacksFor (T.format self.protocol) (T.besides self.protocol) (length (T.asks self.protocol)) result.ended (past_as T.said result.end.state) }
        ensures paced { IsPaced (T.format self.protocol) self.starts (T.asks self.protocol) (past_as T.said result.end.state) }
        ensures ids { AskedFrom (T.format self.protocol) (length self.table) (T.asks self.protocol) (past_as T.said result.end.state) }
        ensures acks { EndsAcked (T.format self.protocol) result.ended (line_of T.said result.end) }
        ensures tried { EverTried S.channel S.told S.tale (T.format self.protocol) result.ended self.end.end (line_of T.said result.end) }
    {
        for _ in rt.forever() {
            match self.turn(gate) {
                Turn::Moved => {}
                Turn::Idle => self.sleep(rt),
                Turn::Ended(ended) => return self.done(ended),
            }
        }
        unreachable!()
    }
}

// Whether the next request waits under this id.
fn is_waiting_under(waiting: Option<u64>, id: u64) -> bool
    ensures { result ≡ waits_under waiting id }
{
    match waiting {
        None => false,
        Some(w) => w == id,
    }
}

// The room in bytes for which an arm waits.
fn want_for(hold: Blocked) -> Option<u32>
    ensures { result ≡ want_by hold }
{
    match hold {
        Blocked::Ack { need } | Blocked::Room { need } => Some(need),
        Blocked::Done | Blocked::Place | Blocked::Answer => None,
    }
}
