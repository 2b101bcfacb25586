//! How the packets of one kind of device are written and read.
ghost use Rattle.std.specs.Prelude.{◌≡◌};

use crate::BufferLists;
use channel_protocol::Written;

/// How the packets of one kind of device are written and read: what its model says. It keeps nothing of a channel. A kind is written once, and a
/// `ChannelProtocol` over it is what both workers of its channel take.
///
/// Packets are written into 384 words, as many as a packet of this program has at most, and page words into 512, as many as a page has. A call that writes no
/// packet answers 0 words.
pub trait Wire: Drop {
    ghost use Rattle.std.specs.Prelude.{◌≡◌, ◌≤◌, ◌<◌, ◌⊎◌, ◌&&◌, ℕ, Bool, true, false, List, [], Option, length, take, slice_get, Some, None, IsSome, MatchOption, is_some};
    ghost use Rattle.ring_machine.specs.States.{IsPacket};
    ghost use Rattle.channel_model.specs.WireFormat.{under_own};
    ghost use Rattle.channel_protocol.specs.Listed.{answer_in, has_message_in, message_in};
    ghost use Rattle.channel_protocol.specs.Paged.{IsWritten, Lays, LaysSome, item_in, words_lent};
    ghost use Rattle.page_kept.specs.declared.item.Item.{Item};
    ghost use Rattle.page_kept.specs.Items.{item_of};
    ghost use Rattle.device_wire.specs.declared.buffer_lists.BufferLists.{BufferLists as Lists};
    ghost use Rattle.device_wire.specs.declared.want.Want.TheVariants.{Step as StepWant, Request as RequestWant};
    ghost use Rattle.device_wire.specs.WireModels.{WireModel, KeepsWire};

    /// A step of the start-up.
    type Step: Drop;

    /// What the device is asked.
    type Request: Drop;

    /// What the device replies.
    type Reply: Drop;

    /// What is decoded of a packet that asks the device, once for all that is done with it.
    type Head: Drop;

    /// What is decoded of an answer that says something.
    type AnswerHead: Drop;

    /// A packet with its page words as they are read: words that stood in the page before, and say nothing, are left out, or are 0.
    ghost said: { Item → Item };

    ghost said_packet: { (i : Item) → (said i).packet ≡ i.packet };

    ghost said_few: { (i : Item) → length (said i).words ≤ length i.words };

    ghost said_bare: { (p : List ℕ) → said (item_of p []) ≡ item_of p [] };

    /// The kind, in its own steps, requests and replies.
    ghost model: { Self → WireModel Self.Step Self.Request Self.Reply };

    /// The requests that can be asked.
    ghost can: { Self → Self.Request → Type 0 };

    ghost kept: { (s : Self) → KeepsWire (model s) (can s) };

    /// This is decoded of this packet, and of this answer, with the packet that came just before it.
    ghost is_head: { Self → Item → Self.Head → Type 0 };

    ghost is_answer_head: { Self → Option Item → Item → Self.AnswerHead → Type 0 };

    /// Whether messages may go back besides the answers, and so how much room the workers make.
    fn besides(&self) -> bool
        ensures { result ≡ (model self.now).besides };

    /// How many steps the start-up of the first channel has, where so many channels are beside it.
    fn count_steps(&self, subs: u32) -> u32
        ensures { (lists : Lists) → result ≡ length ((model self.now).steps subs lists) };

    /// The k-th of these steps, with these page lists.
    fn step(&self, subs: u32, lists: BufferLists, k: u32) -> Self::Step
        requires subs { subs ≤ 3 }
        requires which { k < length ((model self.now).steps subs lists) }
        ensures { slice_get ((model self.now).steps subs lists) k ≡ Some result };

    /// Whether a step has an answer.
    fn is_answered(&self, step: &Self::Step) -> bool
        ensures { result ≡ (model self.now).answered step.now };

    /// Writes the packet of a step under an id. Where packets lend pages, the ids are at most 64, and the packet itself says how many page words it lends.
    fn write_step(&self, step: &Self::Step, id: u64, out: &mut [u64], page: &mut [u64]) -> Written
        requires id { (model self.now).lends ≡ true → id ≤ 64 }
        requires out { length out.old ≡ 384 }
        requires page { length page.old ≡ 512 }
        ensures value { (i : Item) → Lays (take result.packet out.new) (take result.words page.new) result.lent i → said i ≡ (model self.now).format.encode id (StepWant step.now) }
        ensures packet { IsPacket (take result.packet out.new) }
        ensures most { IsWritten result }
        ensures lent { (model self.now).lends ≡ true → result.lent ≡ words_lent (take result.packet out.new) }
        ensures none { (model self.now).lends ≡ false → result.lent ≡ 0 }
        ensures page { length page.new ≡ 512 };

    /// Writes the packet that asks this under an id.
    fn write_request(
        &self,
        request: &Self::Request,
        id: u64,
        out: &mut [u64],
        page: &mut [u64],
    ) -> Written
        requires can { can self.now request.now }
        requires id { (model self.now).lends ≡ true → id ≤ 64 }
        requires out { length out.old ≡ 384 }
        requires page { length page.old ≡ 512 }
        ensures value { (i : Item) → Lays (take result.packet out.new) (take result.words page.new) result.lent i → said i ≡ (model self.now).format.encode id (RequestWant request.now) }
        ensures packet { IsPacket (take result.packet out.new) }
        ensures most { IsWritten result }
        ensures lent { (model self.now).lends ≡ true → result.lent ≡ words_lent (take result.packet out.new) }
        ensures none { (model self.now).lends ≡ false → result.lent ≡ 0 }
        ensures page { length page.new ≡ 512 };

    /// Whether a packet of the end that asks is a request that has an answer.
    fn is_waiting(&self, packet: &[u64]) -> bool
        requires { IsPacket packet.now }
        ensures { (i : Item) → i.packet ≡ packet.now → result ≡ ((model self.now).format.is_request i && (model self.now).format.waits i) };

    /// Whether a packet of the end that asks acknowledges a message.
    fn is_ack(&self, packet: &[u64]) -> bool
        requires { IsPacket packet.now }
        ensures { (i : Item) → i.packet ≡ packet.now → result ≡ (model self.now).format.is_ack i };

    /// Whether a packet of the end that serves is an answer.
    fn is_answer(&self, packet: &[u64]) -> bool
        requires { IsPacket packet.now }
        ensures { (i : Item) → i.packet ≡ packet.now → result ≡ (model self.now).format.is_answer i };

    /// Whether a packet of the end that serves is a message, which is to be acknowledged.
    fn is_message(&self, packet: &[u64]) -> bool
        requires { IsPacket packet.now }
        ensures { (i : Item) → i.packet ≡ packet.now → result ≡ (model self.now).format.is_message i };

    /// Writes what acknowledges a message. Where packets lend pages, the page of the message goes back with it, and its words say nothing.
    fn write_ack(&self, packet: &[u64], out: &mut [u64]) -> usize
        requires packet { IsPacket packet.now }
        requires out { length out.old ≡ 384 }
        ensures value { (i j : Item) → i.packet ≡ packet.now → (model self.now).format.is_message i ≡ true → j.packet ≡ take result out.new → said j ≡ (model self.now).format.ack i }
        ensures written { (i : Item) → i.packet ≡ packet.now → (model self.now).format.is_message i ≡ true → IsPacket (take result out.new) }
        ensures most { result ≤ 384 };

    /// Decodes a packet that asks the device. Of one that doesn't there is nothing to decode: what goes back for it is fixed.
    fn head(&self, packet: &[u64], words: &[u64]) -> Option<Self::Head>
        requires packet { IsPacket packet.now }
        requires words { length words.now ≤ 512 }
        ensures { MatchOption result ((model self.now).format.read (said (item_of packet.now words.now)) ≡ None) (λ h. IsSome ((model self.now).format.read (said (item_of packet.now words.now))) × is_head self.now (said (item_of packet.now words.now)) h) };

    /// What a packet asks of the device.
    fn read(&self, packet: &[u64], words: &[u64], head: &Self::Head) -> Self::Request
        requires packet { IsPacket packet.now }
        requires words { length words.now ≤ 512 }
        requires head { is_head self.now (said (item_of packet.now words.now)) head.now }
        requires asks { IsSome ((model self.now).format.read (said (item_of packet.now words.now))) }
        ensures { (model self.now).format.read (said (item_of packet.now words.now)) ≡ Some result };

    /// Whether a message goes back for a packet that asks nothing of the device, besides the answer.
    fn has_fixed_message(&self, packet: &[u64], words: &[u64]) -> bool
        requires packet { IsPacket packet.now }
        requires words { length words.now ≤ 512 }
        ensures { result ≡ has_message_in ((model self.now).format.fixed (said (item_of packet.now words.now))) };

    /// Writes that message, if there is one, under an id of the serving end's own.
    fn write_fixed_message(
        &self,
        packet: &[u64],
        words: &[u64],
        own: u64,
        out: &mut [u64],
        page: &mut [u64],
    ) -> Written
        requires packet { IsPacket packet.now }
        requires words { length words.now ≤ 512 }
        requires own { (model self.now).lends ≡ true → own ≤ 64 }
        requires out { length out.old ≡ 384 }
        requires page { length page.old ≡ 512 }
        ensures value { LaysSome said (take result.packet out.new) (take result.words page.new) result.lent (message_in own ((model self.now).format.fixed (said (item_of packet.now words.now)))) }
        ensures written { 0 < result.packet → IsPacket (take result.packet out.new) }
        ensures most { IsWritten result }
        ensures lent { (model self.now).lends ≡ true → result.lent ≡ words_lent (take result.packet out.new) }
        ensures none { (model self.now).lends ≡ false → result.lent ≡ 0 }
        ensures page { length page.new ≡ 512 };

    /// Writes the answer that goes back for such a packet, if one does. Where packets lend pages, the page of that packet goes back with it, and its words say nothing.
    fn write_fixed(&self, packet: &[u64], words: &[u64], out: &mut [u64]) -> usize
        requires packet { IsPacket packet.now }
        requires words { length words.now ≤ 512 }
        requires out { length out.old ≡ 384 }
        ensures value { LaysSome said (take result out.new) [] 0 (answer_in ((model self.now).format.fixed (said (item_of packet.now words.now)))) }
        ensures back { (model self.now).lends ≡ true → (n : ℕ) → LaysSome said (take result out.new) [] n (answer_in ((model self.now).format.fixed (said (item_of packet.now words.now)))) }
        ensures written { 0 < result → IsPacket (take result out.new) }
        ensures most { result ≤ 384 };

    /// Whether a message goes back besides the answer with the device's reply.
    fn has_message(&self, packet: &[u64], words: &[u64], reply: &Self::Reply) -> bool
        requires packet { IsPacket packet.now }
        requires words { length words.now ≤ 512 }
        requires fits { (q : Self.Request) × ((model self.now).format.read (said (item_of packet.now words.now)) ≡ Some q) × ((model self.now).format.fits q reply.now ≡ true) }
        ensures { result ≡ is_some ((model self.now).format.gives (said (item_of packet.now words.now)) reply.now).message };

    /// Writes that message, if there is one, under an id of the serving end's own.
    fn write_message(
        &self,
        packet: &[u64],
        words: &[u64],
        reply: &Self::Reply,
        own: u64,
        out: &mut [u64],
        page: &mut [u64],
    ) -> Written
        requires packet { IsPacket packet.now }
        requires words { length words.now ≤ 512 }
        requires fits { (q : Self.Request) × ((model self.now).format.read (said (item_of packet.now words.now)) ≡ Some q) × ((model self.now).format.fits q reply.now ≡ true) }
        requires own { (model self.now).lends ≡ true → own ≤ 64 }
        requires out { length out.old ≡ 384 }
        requires page { length page.old ≡ 512 }
        ensures value { LaysSome said (take result.packet out.new) (take result.words page.new) result.lent (under_own own ((model self.now).format.gives (said (item_of packet.now words.now)) reply.now).message) }
        ensures written { 0 < result.packet → IsPacket (take result.packet out.new) }
        ensures most { IsWritten result }
        ensures lent { (model self.now).lends ≡ true → result.lent ≡ words_lent (take result.packet out.new) }
        ensures none { (model self.now).lends ≡ false → result.lent ≡ 0 }
        ensures page { length page.new ≡ 512 };

    /// Writes the answer with the device's reply. It brings back no more page words than came with the packet; where packets lend pages, the whole part of the page goes
    /// back, and the words past these say nothing.
    fn write_answer(
        &self,
        packet: &[u64],
        words: &[u64],
        head: &Self::Head,
        reply: &Self::Reply,
        out: &mut [u64],
        page: &mut [u64],
    ) -> Written
        requires packet { IsPacket packet.now }
        requires words { length words.now ≤ 512 }
        requires head { is_head self.now (said (item_of packet.now words.now)) head.now }
        requires fits { (q : Self.Request) × ((model self.now).format.read (said (item_of packet.now words.now)) ≡ Some q) × ((model self.now).format.fits q reply.now ≡ true) }
        requires out { length out.old ≡ 384 }
        requires page { length page.old ≡ 512 }
        ensures value { (i : Item) → Lays (take result.packet out.new) (take result.words page.new) result.lent i → said i ≡ ((model self.now).format.gives (said (item_of packet.now words.now)) reply.now).answer }
        ensures back { (model self.now).lends ≡ true → (n : ℕ) (i : Item) → result.lent ≤ n → Lays (take result.packet out.new) (take result.words page.new) n i → said i ≡ ((model self.now).format.gives (said (item_of packet.now words.now)) reply.now).answer }
        ensures packet { IsPacket (take result.packet out.new) }
        ensures most { IsWritten result }
        ensures within { result.lent ≤ length (said (item_of packet.now words.now)).words }
        ensures none { (model self.now).lends ≡ false → result.lent ≡ 0 }
        ensures page { length page.new ≡ 512 };

    /// Decodes an answer that says something. `before` is the packet that came just before it, where that was no answer, and else empty.
    fn answer_head(
        &self,
        before: &[u64],
        before_words: &[u64],
        packet: &[u64],
        words: &[u64],
    ) -> Option<Self::AnswerHead>
        requires before { before.now ≡ [] ⊎ IsPacket before.now }
        requires before_words { length before_words.now ≤ 512 }
        requires packet { IsPacket packet.now }
        requires words { length words.now ≤ 512 }
        ensures { MatchOption result ((model self.now).reply_in (item_in said before.now before_words.now) (said (item_of packet.now words.now)) ≡ None) (λ h. is_answer_head self.now (item_in said before.now before_words.now) (said (item_of packet.now words.now)) h) };

    /// The reply that such an answer says.
    fn reply(
        &self,
        before: &[u64],
        before_words: &[u64],
        packet: &[u64],
        words: &[u64],
        head: &Self::AnswerHead,
    ) -> Self::Reply
        requires before { before.now ≡ [] ⊎ IsPacket before.now }
        requires before_words { length before_words.now ≤ 512 }
        requires packet { IsPacket packet.now }
        requires words { length words.now ≤ 512 }
        requires head { is_answer_head self.now (item_in said before.now before_words.now) (said (item_of packet.now words.now)) head.now }
        ensures { (model self.now).reply_in (item_in said before.now before_words.now) (said (item_of packet.now words.now)) ≡ Some result };
}
