//! What the serving end owes for one packet.
ghost use Rattle.std.specs.Prelude.{◌≡◌, ◌≤◌, [], ◌∷◌, MatchOption, drop, filter, length, map, IfOk, true, false};
ghost use Rattle.ring_machine.specs.States.{IsPacket};
ghost use Rattle.page_kept.specs.Items.{item_of};
ghost use Rattle.worker_server.specs.Sheets.{AreBare, BringBack, read_all, sheets_of};
ghost use Rattle.worker_port.specs.Owed.{is_nil, FitsReply};
ghost use Rattle.channel_model.specs.Acks.{is_in};
ghost use Rattle.channel_model.specs.WireFormat.{packets_in, packets_of};

use channel_protocol::Protocol;
use std::alloc::{AllocError, Global};
use std::marker::Model;
use worker_port::PacketBuffer;

/// A message and an answer, each of which may be none, with the page words that are stored for it. The message is sent first.
#[derive(Drop)]
pub(crate) struct Owed {
    message: PacketBuffer,
    answer: PacketBuffer,
}

impl Model for Owed {
    ghost use Rattle.std.specs.Prelude.{List, ◌++◌};
    ghost use Rattle.worker_port.specs.Owed.{Written};
    ghost use Rattle.worker_server.specs.Sheets.{sheets_of};

    ghost Value = { List Written };

    ghost view = { λ o. sheets_of o.message ++ sheets_of o.answer };
}

impl Owed {
    pub(crate) fn make(alloc: Global) -> Result<Owed, AllocError>
        ensures { IfOk result (λ o. o ≡ []) }
    {
        let message = PacketBuffer::make(alloc)?;
        let answer = PacketBuffer::make(alloc)?;
        Ok(Owed { message, answer })
    }

    #[tactic(auto, using(crate::proofs::OwedLaws::both_nil, crate::proofs::OwedLaws::both_clear))]
    pub(crate) fn is_empty(&self) -> bool
        ensures value { result ≡ is_nil self.now }
        ensures clear { result ≡ true → self.now ≡ [] }
    {
        self.message.is_empty() && self.answer.is_empty()
    }

    // The packet that is sent next, with its page words.
    #[tactic(auto, using(crate::proofs::OwedLaws::first_answer, crate::proofs::OwedLaws::first_message))]
    pub(crate) fn first(&self) -> &PacketBuffer
        requires { is_nil self.now ≡ false }
        ensures value { self.now ≡ result.now ∷ drop 1 self.now }
        ensures some { is_nil result.now.packet ≡ false }
    {
        if self.message.is_empty() {
            &self.answer
        } else {
            &self.message
        }
    }

    #[tactic(auto, using(crate::proofs::OwedLaws::pop_answer, crate::proofs::OwedLaws::pop_message))]
    pub(crate) fn pop(&mut self)
        ensures { self.new ≡ drop 1 self.old }
    {
        if self.message.is_empty() {
            self.answer.clear();
        } else {
            self.message.clear();
        }
    }

    // Whether a message is owed that goes under this id.
    pub(crate) fn has_message<T: Protocol>(&self, protocol: &T, id: u64) -> bool
        ensures { result ≡ is_in id (map (T.format protocol.now).id_of (filter (T.format protocol.now).is_message (read_all T.said self.now))) }
    {
        is_message_under(protocol, &self.message, id)
            || is_message_under(protocol, &self.answer, id)
    }

    // What goes back for a packet that asks nothing of the device.
    pub(crate) fn owe_fixed<T: Protocol>(
        &mut self,
        protocol: &T,
        packet: &[u64],
        words: &[u64],
        own: u64,
    )
        requires packet { IsPacket packet.now }
        requires words { length words.now ≤ 512 }
        requires own { own ≤ 64 }
        ensures value { read_all T.said self.new ≡ packets_in own ((T.format protocol.now).fixed (T.said (item_of packet.now words.now))) }
        ensures few { length self.new ≤ 2 }
        ensures bare { T.lends protocol.now ≡ false → AreBare self.new }
        ensures back { T.lends protocol.now ≡ true → BringBack T.said (length (T.said (item_of packet.now words.now)).words) self.new }
    {
        self.message
            .write_fixed_message(protocol, packet, words, own);
        self.answer.write_fixed(protocol, packet, words);
    }

    // What goes back with the device's reply.
    pub(crate) fn owe_reply<T: Protocol>(
        &mut self,
        protocol: &T,
        packet: &[u64],
        words: &[u64],
        head: &T::Head,
        reply: &T::Reply,
        own: u64,
    )
        requires packet { IsPacket packet.now }
        requires words { length words.now ≤ 512 }
        requires head { T.is_head protocol.now (T.said (item_of packet.now words.now)) head.now }
        requires fits { FitsReply (T.format protocol.now) (T.said (item_of packet.now words.now)) reply.now }
        requires own { own ≤ 64 }
        ensures value { read_all T.said self.new ≡ packets_of own ((T.format protocol.now).gives (T.said (item_of packet.now words.now)) reply.now) }
        ensures few { length self.new ≤ 2 }
        ensures bare { T.lends protocol.now ≡ false → AreBare self.new }
        ensures back { T.lends protocol.now ≡ true → BringBack T.said (length (T.said (item_of packet.now words.now)).words) self.new }
    {
        self.message
            .write_message(protocol, packet, words, reply, own);
        self.answer
            .write_answer(protocol, packet, words, head, reply);
    }
}

// Whether a packet, if there is one, is a message under this id.
fn is_message_under<T: Protocol>(protocol: &T, buffer: &PacketBuffer, id: u64) -> bool
    ensures { result ≡ is_in id (map (T.format protocol.now).id_of (filter (T.format protocol.now).is_message (read_all T.said (sheets_of buffer.now)))) }
{
    if buffer.is_empty() {
        return false;
    }
    let packet = buffer.packet();
    protocol.is_message(packet) && protocol.id(packet) == id
}
