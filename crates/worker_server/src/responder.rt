//! Where the serving end serves one packet after another.
ghost use Rattle.std.specs.Prelude.{◌≡◌, ◌<◌, ◌≤◌, ◌+◌, ◌-◌, if◌then◌else◌, [], ◌∷◌, ◌++◌, drop, length, Some, None, true, false, IfOk, map, filter, count_by, is_some, IsSome, vec_len, vec_capacity, replicate, ◌&&◌, ◌==◌, ℕ, suc};
ghost use Rattle.page_kept.specs.Items.{item_of};
ghost use Rattle.ring_machine.specs.States.{IsPacket};
ghost use Rattle.worker_port.specs.Owed.{is_nil, need_of, IsNeed};
ghost use Rattle.worker_port.specs.Rooms.{is_asked};
ghost use Rattle.worker_server.specs.Sheets.{AreBare, GoesBack, item_on, read_all};
ghost use Rattle.worker_server.specs.Serving.{Closes, IsFull, ServesPacket, has_served, own_in};
ghost use Rattle.txn_table.specs.Open.{HasNone};
ghost use Rattle.channel_model.specs.Workers.{Owes};

use crate::lists::{Lists, OWN};
use crate::owed::Owed;
use crate::own::{close_own, open_own};
use channel_protocol::{Device, Protocol};
use io_edge::{Gate, Side};
use std::alloc::{AllocError, Global};
use std::marker::Model;
use std::sync::Wait;
use txn_table::TxnTable;
use worker_port::{PacketBuffer, id_read, is_ack_read, is_waiting_read};

/// The protocol, the place at the device, the messages of its own that are open or owed, and what is owed for the packet that was served last.
#[derive(Drop)]
pub(crate) struct Responder<T: Protocol, S: Device<T>> {
    protocol: T,
    seat: S,
    table: TxnTable<u32>,
    rescinded: Vec<u32>,
    owed: Owed,
    left: Option<u32>,
    held: bool,
    serials: Vec<u32>,
    side: Side,
    relid: u32,
    // How many requests of the device passed the gate.
    number: u32,
}

impl<T: Protocol, S: Device<T>> Model for Responder<T, S> {
    ghost use Rattle.std.specs.Prelude.{◌≡◌, ◌≤◌, ◌-◌, length, map, vec_len, vec_capacity};
    ghost use Rattle.worker_server.specs.Serving.{Responder, HasCalls, first_calls, last_calls};
    ghost use Rattle.worker_server.specs.Sheets.{read_all};

    ghost Value = { Responder T S T.Request T.Reply };

    ghost view = { λ d. record { protocol = d.protocol; seat = d.seat; before = first_calls (S.calls d.seat) (length d.serials.items); calls = last_calls (S.calls d.seat) (length d.serials.items); table = d.table; owed = read_all T.said d.owed; sheets = d.owed; left = d.left; held = d.held; serials = d.serials.items; side = d.side; relid = d.relid } };

    ghost invariant = { λ d. record { calls : HasCalls d.left (S.left d.seat); room : HasCalls d.left (vec_capacity d.serials - vec_len d.serials); serves : S.serves d.seat d.protocol; made : length d.serials.items ≤ length (S.calls d.seat); serials : d.serials.items ≡ map (λ c. c.serial) (last_calls (S.calls d.seat) (length d.serials.items)); places : length d.table ≡ 64; rescinds : (vec_len d.rescinded ≡ 0) × (64 ≤ vec_capacity d.rescinded) } };
}

impl<T: Protocol, S: Device<T>> Responder<T, S> {
    // A responder that has served nothing here. The seat may have made calls before.
    pub(crate) fn make(
        alloc: Global,
        protocol: T,
        seat: S,
        side: Side,
        relid: u32,
        serve: u32,
        held: bool,
    ) -> Result<Responder<T, S>, AllocError>
        requires serves { S.serves seat protocol }
        requires calls { serve ≤ S.left seat }
        ensures { IfOk result (λ d. d ≡ record { protocol = protocol; seat = seat; before = S.calls seat; calls = []; table = replicate 64 None; owed = []; sheets = []; left = Some serve; held = held; serials = []; side = side; relid = relid }) }
    {
        match Lists::make(alloc, serve) {
            Ok(lists) => Ok(Responder::over(protocol, seat, lists, side, relid, serve, held)),
            Err(refused) => {
                drop(protocol);
                drop(seat);
                Err(refused)
            }
        }
    }

    // A responder that has served nothing, over empty lists.
    fn over(
        protocol: T,
        seat: S,
        lists: Lists,
        side: Side,
        relid: u32,
        serve: u32,
        held: bool,
    ) -> Responder<T, S>
        requires serves { S.serves seat protocol }
        requires calls { serve ≤ S.left seat }
        requires table { lists.table ≡ replicate 64 None }
        requires rescinded { (vec_len lists.rescinded ≡ 0) × (64 ≤ vec_capacity lists.rescinded) }
        requires owed { lists.owed ≡ [] }
        requires none { lists.serials.items ≡ [] }
        requires serials { (vec_len lists.serials ≡ 0) × (serve ≤ vec_capacity lists.serials) }
        ensures { result ≡ record { protocol = protocol; seat = seat; before = S.calls seat; calls = []; table = replicate 64 None; owed = []; sheets = []; left = Some serve; held = held; serials = []; side = side; relid = relid } }
    {
        let Lists {
            table,
            rescinded,
            owed,
            serials,
        } = lists;
        Responder {
            protocol,
            seat,
            table,
            rescinded,
            owed,
            left: Some(serve),
            held,
            serials,
            side,
            relid,
            number: 0,
        }
    }

    pub(crate) fn is_clear(&self) -> bool
        ensures value { result ≡ is_nil self.now.owed }
        ensures clear { result ≡ true → self.now.owed ≡ [] }
    {
        self.owed.is_empty()
    }

    // Whether all requests that are to be served were.
    pub(crate) fn has_served(&self) -> bool
        ensures { result ≡ has_served self.now.left }
    {
        match self.left {
            None => true,
            Some(count) => count == 0,
        }
    }

    // How many requests of the start-up are missing after this packet, where so many were before it. A packet is read only while some are.
    pub(crate) fn missing_after(&self, missing: u32, packet: &[u64], words: &[u64]) -> u32
        requires { IsPacket packet.now }
        ensures { result ≡ missing - (if (T.format self.now.protocol).is_request (T.said (item_of packet.now words.now)) && (T.format self.now.protocol).waits (T.said (item_of packet.now words.now)) then 1 else 0) }
    {
        if missing == 0 || !is_waiting_read(&self.protocol, packet, words) {
            return missing;
        }
        missing - 1
    }

    // Whether a packet asks the device for something.
    pub(crate) fn is_asked(&self, packet: &[u64], words: &[u64]) -> bool
        requires packet { IsPacket packet.now }
        requires words { length words.now ≤ 512 }
        ensures { result ≡ is_asked (T.format self.now.protocol) (T.said (item_of packet.now words.now)) }
    {
        self.protocol.head(packet, words).is_some()
    }

    // Whether each place of its own table is taken: then a message that goes back waits for an acknowledgement.
    pub(crate) fn is_full(&self) -> bool
        ensures full { result ≡ true → IsFull self.now.table }
        ensures room { result ≡ false → count_by is_some self.now.table < length self.now.table }
    {
        self.table.count() == OWN
    }

    // Closes the message that a packet acknowledges, if it is one that does. One that is only owed isn't closed.
    pub(crate) fn close(&mut self, packet: &[u64], words: &[u64])
        requires { IsPacket packet.now }
        ensures closes { Closes (T.format self.old.protocol) self.old.owed (T.said (item_of packet.now words.now)) self.old.table self.new.table }
        ensures size { length self.new.table ≡ length self.old.table }
        ensures same { self.new ≡ record self.old { table = self.new.table } }
    {
        if !is_ack_read(&self.protocol, packet, words) {
            return;
        }
        let id = id_read(&self.protocol, packet, words);
        if self.owed.has_message(&self.protocol, id) {
            return;
        }
        close_own(&mut self.table, id);
    }

    // Settles all messages of its own that are open, and those that are owed.
    #[tactic(auto, using(crate::proofs::OwnLaws::none_requested))]
    pub(crate) fn rescind_all(&mut self)
        ensures none { HasNone self.new.table }
        ensures same { self.new ≡ record self.old { table = replicate 64 None } }
    {
        self.table.rescind_all(&mut self.rescinded);
        self.rescinded.clear();
    }

    // The packet that is sent next, with its page words.
    pub(crate) fn first(&self) -> &PacketBuffer
        requires { is_nil self.now.owed ≡ false }
        ensures value { self.now.owed ≡ T.said (item_on result.now) ∷ drop 1 self.now.owed }
        ensures sheets { self.now.sheets ≡ result.now ∷ drop 1 self.now.sheets }
        ensures read { self.now.owed ≡ read_all T.said self.now.sheets }
        ensures some { is_nil result.now.packet ≡ false }
    {
        self.owed.first()
    }

    // The room in bytes that it needs.
    pub(crate) fn need(&self) -> Option<u32>
        ensures value { result ≡ need_of self.now.owed }
        ensures most { IsNeed result }
    {
        if self.owed.is_empty() {
            return None;
        }
        Some(8 * self.owed.first().packet().len() as u32 + 8)
    }

    pub(crate) fn pop(&mut self)
        ensures { self.new ≡ record self.old { owed = drop 1 self.old.owed; sheets = drop 1 self.old.sheets } }
    {
        self.owed.pop();
    }

    // The calls that the seat has left.
    pub(crate) fn left(&self) -> u32
        ensures { result ≡ S.left self.now.seat }
    {
        self.seat.left()
    }

    // Serves a packet. A message that goes back takes a free place of its own table.
    pub(crate) fn serve<R: Wait, G: Gate>(
        &mut self,
        rt: &R,
        gate: &G,
        packet: &[u64],
        words: &[u64],
    )
        requires owed { self.old.owed ≡ [] }
        requires packet { IsPacket packet.now }
        requires words { length words.now ≤ 512 }
        requires room { count_by is_some self.old.table < length self.old.table }
        ensures serves { ServesPacket (T.format self.new.protocol) self.new.held (T.said (item_of packet.now words.now)) self.old.left self.old.calls self.new.calls self.new.owed self.new.left }
        ensures owes { Owes (T.format self.new.protocol) self.new.owed (own_in self.old.table) (own_in self.new.table) }
        ensures size { length self.new.table ≡ length self.old.table }
        ensures few { length self.new.owed ≤ 2 }
        ensures bare { T.lends self.new.protocol ≡ false → AreBare self.new.sheets }
        ensures back { T.lends self.new.protocol ≡ true → GoesBack T.said (T.format self.new.protocol) (T.besides self.new.protocol) (T.said (item_of packet.now words.now)) self.new.sheets }
        ensures same { (self.new.protocol ≡ self.old.protocol) × (self.new.held ≡ self.old.held) × S.same self.old.seat self.new.seat }
        ensures channel { (self.new.side ≡ self.old.side) × (self.new.relid ≡ self.old.relid) }
        ensures before { self.new.before ≡ self.old.before }
    {
        let Some(count) = self.left else {
            return;
        };
        match self.protocol.head(packet, words) {
            None => self.serve_fixed(count, packet, words),
            Some(head) => self.serve_request(rt, gate, count, packet, words, &head),
        }
    }

    // Serves a packet that asks nothing of the device.
    fn serve_fixed(&mut self, count: u32, packet: &[u64], words: &[u64])
        requires owed { self.old.owed ≡ [] }
        requires packet { IsPacket packet.now }
        requires words { length words.now ≤ 512 }
        requires count { self.old.left ≡ Some count }
        requires reads { (T.format self.old.protocol).read (T.said (item_of packet.now words.now)) ≡ None }
        requires room { count_by is_some self.old.table < length self.old.table }
        ensures serves { ServesPacket (T.format self.new.protocol) self.new.held (T.said (item_of packet.now words.now)) (Some count) self.old.calls self.new.calls self.new.owed self.new.left }
        ensures owes { Owes (T.format self.new.protocol) self.new.owed (own_in self.old.table) (own_in self.new.table) }
        ensures size { length self.new.table ≡ length self.old.table }
        ensures few { length self.new.owed ≤ 2 }
        ensures bare { T.lends self.new.protocol ≡ false → AreBare self.new.sheets }
        ensures back { T.lends self.new.protocol ≡ true → GoesBack T.said (T.format self.new.protocol) (T.besides self.new.protocol) (T.said (item_of packet.now words.now)) self.new.sheets }
        ensures same { (self.new.protocol ≡ self.old.protocol) × (self.new.held ≡ self.old.held) × (self.new.seat ≡ self.old.seat) }
        ensures channel { (self.new.side ≡ self.old.side) × (self.new.relid ≡ self.old.relid) }
        ensures before { self.new.before ≡ self.old.before }
    {
        let besides = self.protocol.has_fixed_message(packet, words);
        let own = open_own(&mut self.table, besides);
        self.owed.owe_fixed(&self.protocol, packet, words, own);
    }

    // Serves a request of the device: past the last one nothing is served, and the last one has no answer where it is held.
    fn serve_request<R: Wait, G: Gate>(
        &mut self,
        rt: &R,
        gate: &G,
        count: u32,
        packet: &[u64],
        words: &[u64],
        head: &T::Head,
    )
        requires owed { self.old.owed ≡ [] }
        requires packet { IsPacket packet.now }
        requires words { length words.now ≤ 512 }
        requires count { self.old.left ≡ Some count }
        requires head { T.is_head self.old.protocol (T.said (item_of packet.now words.now)) head.now }
        requires reads { IsSome ((T.format self.old.protocol).read (T.said (item_of packet.now words.now))) }
        requires room { count_by is_some self.old.table < length self.old.table }
        ensures serves { ServesPacket (T.format self.new.protocol) self.new.held (T.said (item_of packet.now words.now)) (Some count) self.old.calls self.new.calls self.new.owed self.new.left }
        ensures owes { Owes (T.format self.new.protocol) self.new.owed (own_in self.old.table) (own_in self.new.table) }
        ensures size { length self.new.table ≡ length self.old.table }
        ensures few { length self.new.owed ≤ 2 }
        ensures bare { T.lends self.new.protocol ≡ false → AreBare self.new.sheets }
        ensures back { T.lends self.new.protocol ≡ true → GoesBack T.said (T.format self.new.protocol) (T.besides self.new.protocol) (T.said (item_of packet.now words.now)) self.new.sheets }
        ensures same { (self.new.protocol ≡ self.old.protocol) × (self.new.held ≡ self.old.held) × S.same self.old.seat self.new.seat }
        ensures channel { (self.new.side ≡ self.old.side) × (self.new.relid ≡ self.old.relid) }
        ensures before { self.new.before ≡ self.old.before }
    {
        if count == 0 {
            self.left = None;
            return;
        }
        self.number = self.number.wrapping_add(1);
        gate.pass(self.side, self.relid, self.number);
        let request = self.protocol.read(packet, words, head);
        let (serial, reply) = self.seat.call(rt, &self.protocol, request);
        self.serials.push_reserved(serial);
        if is_held_back(self.held, count) {
            self.left = None;
        } else {
            let besides = self.protocol.has_message(packet, words, &reply);
            let own = open_own(&mut self.table, besides);
            self.owed
                .owe_reply(&self.protocol, packet, words, head, &reply, own);
            self.left = Some(count - 1);
        }
    }

    // The seat, and the serials of the calls that were made here.
    pub(crate) fn into_seat(self) -> (S, Vec<u32>)
        ensures seat { result.0 ≡ self.seat }
        ensures serials { result.1.items ≡ map (λ c. c.serial) self.calls }
        ensures calls { S.calls result.0 ≡ self.before ++ self.calls }
    {
        let Responder {
            protocol,
            seat,
            table,
            rescinded,
            owed,
            left: _,
            held: _,
            serials,
            side: _,
            relid: _,
            number: _,
        } = self;
        drop(protocol);
        drop(table);
        drop(rescinded);
        drop(owed);
        (seat, serials)
    }
}

// Whether the answer to a request is held, where so many are still to be served with it.
fn is_held_back(held: bool, count: u32) -> bool
    requires { 0 < count }
    ensures { (k : ℕ) → count ≡ suc k → result ≡ (held && k == 0) }
{
    held && count == 1
}
