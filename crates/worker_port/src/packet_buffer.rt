//! A buffer in which a packet is written.
ghost use Rattle.std.specs.Prelude.{◌≡◌, ◌<◌, ◌≤◌, ◌+◌, ◌*◌, [], ℕ, length, slice_get, Some, IfOk, true, false, ◌⊎◌};
ghost use Rattle.page_kept.specs.declared.item.Item.{Item};
ghost use Rattle.page_kept.specs.Items.{item_of};
ghost use Rattle.channel_protocol.specs.Listed.{answer_in, message_in};
ghost use Rattle.channel_protocol.specs.Paged.{Lays, LaysSome, words_lent};
ghost use Rattle.channel_model.specs.WireFormat.{under_own};
ghost use Rattle.ring_machine.specs.States.{IsPacket};
ghost use Rattle.worker_port.specs.Owed.{is_nil, FitsReply, LaysOn, LaysSomeOn};

use channel_protocol::{Protocol, Written};
use std::alloc::{AllocError, Global};
use std::marker::Model;

// The words of a packet at most.
const MOST: usize = 384;

// The words of a page.
const PAGE: usize = 512;

// No packet, and no page words.
const NONE: Written = Written {
    packet: 0,
    words: 0,
    lent: 0,
};

/// A packet of at most 384 words, or none, and its page words.
#[derive(Drop)]
pub struct PacketBuffer {
    words: Vec<u64>,
    page: Vec<u64>,
    spread: Written,
}

impl Model for PacketBuffer {
    ghost use Rattle.std.specs.Prelude.{take};
    ghost use Rattle.worker_port.specs.Owed.{IsPacketBuffer, Written};

    ghost Value = { Written };

    ghost view = { λ s. record { packet = take s.spread.packet s.words.items; words = take s.spread.words s.page.items; lent = s.spread.lent } };

    ghost invariant = { λ s. IsPacketBuffer s.words.items s.page.items s.spread };
}

impl PacketBuffer {
    /// A buffer with no packet. It takes the memory of one of 384 words.
    pub fn make(alloc: Global) -> Result<PacketBuffer, AllocError>
        ensures { IfOk result (λ s. s.packet ≡ []) }
    {
        let words = Vec::from_elem(alloc, 0, MOST)?;
        let page = Vec::from_elem(alloc, 0, PAGE)?;
        Ok(PacketBuffer {
            words,
            page,
            spread: NONE,
        })
    }

    /// Whether it has no packet.
    pub fn is_empty(&self) -> bool
        ensures { result ≡ is_nil self.now.packet }
    {
        self.spread.packet == 0
    }

    /// Takes the packet away.
    pub fn clear(&mut self)
        ensures { self.new.packet ≡ [] }
    {
        self.spread = NONE;
    }

    /// The words of the packet.
    pub fn packet(&self) -> &[u64]
        ensures value { result.now ≡ self.now.packet }
        ensures packet { is_nil self.now.packet ≡ true ⊎ IsPacket result.now }
        ensures most { length result.now ≤ 384 }
    {
        &self.words[..self.spread.packet]
    }

    /// The page words that are to be stored.
    pub fn page(&self) -> &[u64]
        ensures value { result.now ≡ self.now.words }
        ensures most { (length result.now ≤ self.now.lent) × (self.now.lent ≤ 512) }
    {
        &self.page[..self.spread.words]
    }

    /// The room in bytes that the packet needs.
    pub fn need(&self) -> u32
        requires { IsPacket self.now.packet }
        ensures value { result ≡ 8 * length self.now.packet + 8 }
        ensures most { (24 ≤ result) × (result ≤ 3080) }
    {
        8 * self.spread.packet as u32 + 8
    }

    /// Writes the k-th request of a protocol under an id.
    pub fn encode<T: Protocol>(&mut self, protocol: &T, k: u32, id: u64)
        requires which { k < length (T.asks protocol.now) }
        requires id { T.lends protocol.now ≡ true → id ≤ 64 }
        ensures value { (a : T.Ask) (i : Item) → slice_get (T.asks protocol.now) k ≡ Some a → LaysOn self.new i → T.said i ≡ (T.format protocol.now).encode id a }
        ensures packet { IsPacket self.new.packet }
        ensures most { length self.new.packet ≤ 384 }
        ensures lent { T.lends protocol.now ≡ true → self.new.lent ≡ words_lent self.new.packet }
        ensures fits { length self.new.words ≤ self.new.lent }
        ensures none { T.lends protocol.now ≡ false → (self.new.words ≡ []) × (self.new.lent ≡ 0) }
    {
        self.spread = protocol.encode(k, id, self.words.as_mut_slice(), self.page.as_mut_slice());
    }

    /// Writes what acknowledges a message.
    pub fn write_ack<T: Protocol>(&mut self, protocol: &T, packet: &[u64])
        requires packet { IsPacket packet.now }
        requires message { (i : Item) × (i.packet ≡ packet.now) × ((T.format protocol.now).is_message i ≡ true) }
        ensures value { (i : Item) → i.packet ≡ packet.now → (T.format protocol.now).is_message i ≡ true → item_of self.new.packet [] ≡ (T.format protocol.now).ack i }
        ensures back { T.lends protocol.now ≡ true → (i j : Item) → i.packet ≡ packet.now → (T.format protocol.now).is_message i ≡ true → j.packet ≡ self.new.packet → T.said j ≡ (T.format protocol.now).ack i }
        ensures packet { IsPacket self.new.packet }
        ensures most { length self.new.packet ≤ 384 }
        ensures none { (self.new.words ≡ []) × (self.new.lent ≡ 0) }
    {
        let packet = protocol.write_ack(packet, self.words.as_mut_slice());
        self.spread = Written {
            packet,
            words: 0,
            lent: 0,
        };
    }

    /// Writes the message that goes back for a packet that asks nothing of the device, if there is one, under an id of the serving end's own.
    pub fn write_fixed_message<T: Protocol>(
        &mut self,
        protocol: &T,
        packet: &[u64],
        words: &[u64],
        own: u64,
    )
        requires packet { IsPacket packet.now }
        requires words { length words.now ≤ 512 }
        requires own { T.lends protocol.now ≡ true → own ≤ 64 }
        ensures value { LaysSomeOn T.said self.new (message_in own ((T.format protocol.now).fixed (T.said (item_of packet.now words.now)))) }
        ensures lent { T.lends protocol.now ≡ true → self.new.lent ≡ words_lent self.new.packet }
        ensures fits { length self.new.words ≤ self.new.lent }
        ensures none { T.lends protocol.now ≡ false → (self.new.words ≡ []) × (self.new.lent ≡ 0) }
    {
        self.spread = protocol.write_fixed_message(
            packet,
            words,
            own,
            self.words.as_mut_slice(),
            self.page.as_mut_slice(),
        );
    }

    /// Writes the answer that goes back for it, if one does.
    pub fn write_fixed<T: Protocol>(&mut self, protocol: &T, packet: &[u64], words: &[u64])
        requires packet { IsPacket packet.now }
        requires words { length words.now ≤ 512 }
        ensures value { LaysSomeOn T.said self.new (answer_in ((T.format protocol.now).fixed (T.said (item_of packet.now words.now)))) }
        ensures back { T.lends protocol.now ≡ true → (n : ℕ) → LaysSome T.said self.new.packet [] n (answer_in ((T.format protocol.now).fixed (T.said (item_of packet.now words.now)))) }
        ensures none { (self.new.words ≡ []) × (self.new.lent ≡ 0) }
    {
        let packet = protocol.write_fixed(packet, words, self.words.as_mut_slice());
        self.spread = Written {
            packet,
            words: 0,
            lent: 0,
        };
    }

    /// Writes the message that goes back before the answer, if there is one, under an id of the serving end's own.
    pub fn write_message<T: Protocol>(
        &mut self,
        protocol: &T,
        packet: &[u64],
        words: &[u64],
        reply: &T::Reply,
        own: u64,
    )
        requires packet { IsPacket packet.now }
        requires words { length words.now ≤ 512 }
        requires fits { FitsReply (T.format protocol.now) (T.said (item_of packet.now words.now)) reply.now }
        requires own { T.lends protocol.now ≡ true → own ≤ 64 }
        ensures value { LaysSomeOn T.said self.new (under_own own ((T.format protocol.now).gives (T.said (item_of packet.now words.now)) reply.now).message) }
        ensures lent { T.lends protocol.now ≡ true → self.new.lent ≡ words_lent self.new.packet }
        ensures fits { length self.new.words ≤ self.new.lent }
        ensures none { T.lends protocol.now ≡ false → (self.new.words ≡ []) × (self.new.lent ≡ 0) }
    {
        self.spread = protocol.write_message(
            packet,
            words,
            reply,
            own,
            self.words.as_mut_slice(),
            self.page.as_mut_slice(),
        );
    }

    /// Writes the answer with the device's reply.
    pub fn write_answer<T: Protocol>(
        &mut self,
        protocol: &T,
        packet: &[u64],
        words: &[u64],
        head: &T::Head,
        reply: &T::Reply,
    )
        requires packet { IsPacket packet.now }
        requires words { length words.now ≤ 512 }
        requires head { T.is_head protocol.now (T.said (item_of packet.now words.now)) head.now }
        requires fits { FitsReply (T.format protocol.now) (T.said (item_of packet.now words.now)) reply.now }
        ensures value { (i : Item) → LaysOn self.new i → T.said i ≡ ((T.format protocol.now).gives (T.said (item_of packet.now words.now)) reply.now).answer }
        ensures back { T.lends protocol.now ≡ true → (n : ℕ) (i : Item) → self.new.lent ≤ n → Lays self.new.packet self.new.words n i → T.said i ≡ ((T.format protocol.now).gives (T.said (item_of packet.now words.now)) reply.now).answer }
        ensures packet { IsPacket self.new.packet }
        ensures within { self.new.lent ≤ length (T.said (item_of packet.now words.now)).words }
        ensures fits { length self.new.words ≤ self.new.lent }
        ensures none { T.lends protocol.now ≡ false → (self.new.words ≡ []) × (self.new.lent ≡ 0) }
    {
        self.spread = protocol.write_answer(
            packet,
            words,
            head,
            reply,
            self.words.as_mut_slice(),
            self.page.as_mut_slice(),
        );
    }
}
