//! What the packets of a channel say.
ghost use Rattle.std.specs.Prelude.{◌≡◌};

/// What was written: how many words the packet has, how many page words are to be stored for it, and how many page words it lends or brings back.
#[derive(Clone, Copy)]
pub struct Written {
    /// The words of the packet.
    pub packet: usize,
    /// The page words that are to be stored.
    pub words: usize,
    /// The page words that go along.
    pub lent: usize,
}

impl Written {
    /// A packet of so many words, without page words.
    pub fn bare(packet: usize) -> Written
        ensures packet { result.packet ≡ packet }
        ensures none { (result.words ≡ 0) × (result.lent ≡ 0) }
    {
        Written {
            packet,
            words: 0,
            lent: 0,
        }
    }
}

/// One end's part in the protocol of a channel of some kind: what the end that asks has to ask in a phase, and how requests and answers stand in packets.
///
/// Packets are written into 384 words, as many as a packet of this program has at most, and page words into 512, as many as a page has. A call that writes no
/// packet answers 0 words.
pub trait Protocol: Drop {
    ghost use Rattle.std.specs.Prelude.{◌≡◌, ◌≤◌, ◌<◌, ◌⊎◌, ◌&&◌, ◌+◌, ◌++◌, ℕ, Bool, true, false, List, [], Option, length, take, slice_get, Some, None, IsSome, MatchOption, is_some, vec_len, vec_capacity};
    ghost use Rattle.ring_machine.specs.States.{IsPacket};
    ghost use Rattle.channel_model.specs.Amounts.{MayHaveMessages};
    ghost use Rattle.channel_model.specs.WireFormat.{WireFormat, Keeps, listed, under_own};
    ghost use Rattle.channel_protocol.specs.Listed.{answer_in, has_message_in, message_in};
    ghost use Rattle.channel_protocol.specs.Paged.{IsWritten, KeepsPages, Lays, LaysSome, item_in, words_lent};
    ghost use Rattle.page_kept.specs.declared.item.Item.{Item};
    ghost use Rattle.page_kept.specs.Items.{item_of};

    /// What can be asked: a request of the start-up, or one of the script. No value of it is made.
    type Ask;

    /// What the device is asked.
    type Request: Drop;

    /// What the device replies.
    type Reply: Drop;

    /// A packet with its page words as they are read: words that stood in the page before, and say nothing, are left out, or are 0.
    ghost said: { Item → Item };

    ghost said_packet: { (i : Item) → (said i).packet ≡ i.packet };

    ghost said_few: { (i : Item) → length (said i).words ≤ length i.words };

    ghost said_bare: { (p : List ℕ) → said (item_of p []) ≡ item_of p [] };

    /// What the packets say, with the page words that are read of them.
    ghost format: { Self → WireFormat Item Self.Ask Self.Request Self.Reply };

    /// Whether its packets lend data pages of the channel.
    ghost lends: { Self → Bool };

    /// Where they do, they keep to what the pages ask.
    ghost paged: { (s : Self) → lends s ≡ true → KeepsPages (format s) };

    ghost keeps: { (s : Self) → Keeps (format s) };

    /// Whether messages may go back besides the answers.
    ghost besides: { Self → Bool };

    ghost may: { (s : Self) → MayHaveMessages (format s) (besides s) };

    /// What the end that asks has to ask in this phase, in order: the start-up first.
    ghost asks: { Self → List Self.Ask };

    /// How many of these are the start-up's, which stand first.
    ghost starts: { Self → ℕ };

    ghost within: { (s : Self) → starts s ≤ length (asks s) };

    /// How much there is to ask.
    fn count(&self) -> u32
        ensures { result ≡ length (asks self.now) };

    /// How many of these are the start-up's.
    fn starts(&self) -> u32
        ensures { result ≡ starts self.now };

    /// Whether messages may go back besides the answers, and so how much room the workers make.
    fn besides(&self) -> bool
        ensures { result ≡ besides self.now };

    /// Whether the k-th ask has an answer.
    fn has_answer(&self, k: u32) -> bool
        requires { k < length (asks self.now) }
        ensures { (a : Self.Ask) → slice_get (asks self.now) k ≡ Some a → result ≡ (format self.now).has_answer a };

    /// Writes the packet that asks this under an id. Where packets lend pages, the ids are at most 64, and the packet itself says how many page words it lends.
    fn encode(&self, k: u32, id: u64, out: &mut [u64], page: &mut [u64]) -> Written
        requires which { k < length (asks self.now) }
        requires id { lends self.now ≡ true → id ≤ 64 }
        requires out { length out.old ≡ 384 }
        requires page { length page.old ≡ 512 }
        ensures value { (a : Self.Ask) (i : Item) → slice_get (asks self.now) k ≡ Some a → Lays (take result.packet out.new) (take result.words page.new) result.lent i → said i ≡ (format self.now).encode id a }
        ensures packet { IsPacket (take result.packet out.new) }
        ensures most { IsWritten result }
        ensures lent { lends self.now ≡ true → result.lent ≡ words_lent (take result.packet out.new) }
        ensures none { lends self.now ≡ false → result.lent ≡ 0 }
        ensures page { length page.new ≡ 512 };

    /// The id of a packet.
    fn id(&self, packet: &[u64]) -> u64
        requires { IsPacket packet.now }
        ensures { (i : Item) → i.packet ≡ packet.now → result ≡ (format self.now).id_of i };

    /// Whether a packet of the end that asks is a request that has an answer.
    fn is_waiting(&self, packet: &[u64]) -> bool
        requires { IsPacket packet.now }
        ensures { (i : Item) → i.packet ≡ packet.now → result ≡ ((format self.now).is_request i && (format self.now).waits i) };

    /// Whether a packet of the end that asks acknowledges a message.
    fn is_ack(&self, packet: &[u64]) -> bool
        requires { IsPacket packet.now }
        ensures { (i : Item) → i.packet ≡ packet.now → result ≡ (format self.now).is_ack i };

    /// Whether a packet of the end that serves is an answer.
    fn is_answer(&self, packet: &[u64]) -> bool
        requires { IsPacket packet.now }
        ensures { (i : Item) → i.packet ≡ packet.now → result ≡ (format self.now).is_answer i };

    /// Whether a packet of the end that serves is a message, which is to be acknowledged.
    fn is_message(&self, packet: &[u64]) -> bool
        requires { IsPacket packet.now }
        ensures { (i : Item) → i.packet ≡ packet.now → result ≡ (format self.now).is_message i };

    /// Writes what acknowledges a message. Where packets lend pages, the page of the message goes back with it, and its words say nothing.
    fn write_ack(&self, packet: &[u64], out: &mut [u64]) -> usize
        requires packet { IsPacket packet.now }
        requires out { length out.old ≡ 384 }
        ensures value { (i : Item) → i.packet ≡ packet.now → (format self.now).is_message i ≡ true → item_of (take result out.new) [] ≡ (format self.now).ack i }
        ensures back { lends self.now ≡ true → (i j : Item) → i.packet ≡ packet.now → (format self.now).is_message i ≡ true → j.packet ≡ take result out.new → said j ≡ (format self.now).ack i }
        ensures written { (i : Item) → i.packet ≡ packet.now → (format self.now).is_message i ≡ true → IsPacket (take result out.new) }
        ensures most { result ≤ 384 };

    /// What is decoded of a packet that asks the device, once for all that is done with it.
    type Head: Drop;

    /// This is decoded of this packet.
    ghost is_head: { Self → Item → Self.Head → Type 0 };

    /// Decodes a packet that asks the device. Of one that doesn't there is nothing to decode: what goes back for it is fixed.
    fn head(&self, packet: &[u64], words: &[u64]) -> Option<Self::Head>
        requires packet { IsPacket packet.now }
        requires words { length words.now ≤ 512 }
        ensures { MatchOption result ((format self.now).read (said (item_of packet.now words.now)) ≡ None) (λ h. IsSome ((format self.now).read (said (item_of packet.now words.now))) × is_head self.now (said (item_of packet.now words.now)) h) };

    /// What a packet asks of the device.
    fn read(&self, packet: &[u64], words: &[u64], head: &Self::Head) -> Self::Request
        requires packet { IsPacket packet.now }
        requires words { length words.now ≤ 512 }
        requires head { is_head self.now (said (item_of packet.now words.now)) head.now }
        requires asks { IsSome ((format self.now).read (said (item_of packet.now words.now))) }
        ensures { (format self.now).read (said (item_of packet.now words.now)) ≡ Some result };

    /// Whether a message goes back for a packet that asks nothing of the device, besides the answer.
    fn has_fixed_message(&self, packet: &[u64], words: &[u64]) -> bool
        requires packet { IsPacket packet.now }
        requires words { length words.now ≤ 512 }
        ensures { result ≡ has_message_in ((format self.now).fixed (said (item_of packet.now words.now))) };

    /// Writes that message, if there is one, under an id of the serving end's own.
    fn write_fixed_message(
        &self,
        packet: &[u64],
        words: &[u64],
        own: u64,
        out: &mut [u64],
        page: &mut [u64],
    ) -> Written
        requires packet { IsPacket packet.now }
        requires words { length words.now ≤ 512 }
        requires own { lends self.now ≡ true → own ≤ 64 }
        requires out { length out.old ≡ 384 }
        requires page { length page.old ≡ 512 }
        ensures value { LaysSome said (take result.packet out.new) (take result.words page.new) result.lent (message_in own ((format self.now).fixed (said (item_of packet.now words.now)))) }
        ensures written { 0 < result.packet → IsPacket (take result.packet out.new) }
        ensures most { IsWritten result }
        ensures lent { lends self.now ≡ true → result.lent ≡ words_lent (take result.packet out.new) }
        ensures none { lends self.now ≡ false → result.lent ≡ 0 }
        ensures page { length page.new ≡ 512 };

    /// Writes the answer that goes back for such a packet, if one does. Where packets lend pages, the page of that packet goes back with it, and its words say nothing.
    fn write_fixed(&self, packet: &[u64], words: &[u64], out: &mut [u64]) -> usize
        requires packet { IsPacket packet.now }
        requires words { length words.now ≤ 512 }
        requires out { length out.old ≡ 384 }
        ensures value { LaysSome said (take result out.new) [] 0 (answer_in ((format self.now).fixed (said (item_of packet.now words.now)))) }
        ensures back { lends self.now ≡ true → (n : ℕ) → LaysSome said (take result out.new) [] n (answer_in ((format self.now).fixed (said (item_of packet.now words.now)))) }
        ensures written { 0 < result → IsPacket (take result out.new) }
        ensures most { result ≤ 384 };

    /// Whether a message goes back besides the answer with the device's reply.
    fn has_message(&self, packet: &[u64], words: &[u64], reply: &Self::Reply) -> bool
        requires packet { IsPacket packet.now }
        requires words { length words.now ≤ 512 }
        requires fits { (q : Self.Request) × ((format self.now).read (said (item_of packet.now words.now)) ≡ Some q) × ((format self.now).fits q reply.now ≡ true) }
        ensures { result ≡ is_some ((format self.now).gives (said (item_of packet.now words.now)) reply.now).message };

    /// Writes that message, if there is one, under an id of the serving end's own.
    fn write_message(
        &self,
        packet: &[u64],
        words: &[u64],
        reply: &Self::Reply,
        own: u64,
        out: &mut [u64],
        page: &mut [u64],
    ) -> Written
        requires packet { IsPacket packet.now }
        requires words { length words.now ≤ 512 }
        requires fits { (q : Self.Request) × ((format self.now).read (said (item_of packet.now words.now)) ≡ Some q) × ((format self.now).fits q reply.now ≡ true) }
        requires own { lends self.now ≡ true → own ≤ 64 }
        requires out { length out.old ≡ 384 }
        requires page { length page.old ≡ 512 }
        ensures value { LaysSome said (take result.packet out.new) (take result.words page.new) result.lent (under_own own ((format self.now).gives (said (item_of packet.now words.now)) reply.now).message) }
        ensures written { 0 < result.packet → IsPacket (take result.packet out.new) }
        ensures most { IsWritten result }
        ensures lent { lends self.now ≡ true → result.lent ≡ words_lent (take result.packet out.new) }
        ensures none { lends self.now ≡ false → result.lent ≡ 0 }
        ensures page { length page.new ≡ 512 };

    /// Writes the answer with the device's reply. It brings back no more page words than came with the packet; where packets lend pages, the whole part of the page goes
    /// back, and the words past these say nothing.
    fn write_answer(
        &self,
        packet: &[u64],
        words: &[u64],
        head: &Self::Head,
        reply: &Self::Reply,
        out: &mut [u64],
        page: &mut [u64],
    ) -> Written
        requires packet { IsPacket packet.now }
        requires words { length words.now ≤ 512 }
        requires head { is_head self.now (said (item_of packet.now words.now)) head.now }
        requires fits { (q : Self.Request) × ((format self.now).read (said (item_of packet.now words.now)) ≡ Some q) × ((format self.now).fits q reply.now ≡ true) }
        requires out { length out.old ≡ 384 }
        requires page { length page.old ≡ 512 }
        ensures value { (i : Item) → Lays (take result.packet out.new) (take result.words page.new) result.lent i → said i ≡ ((format self.now).gives (said (item_of packet.now words.now)) reply.now).answer }
        ensures back { lends self.now ≡ true → (n : ℕ) (i : Item) → result.lent ≤ n → Lays (take result.packet out.new) (take result.words page.new) n i → said i ≡ ((format self.now).gives (said (item_of packet.now words.now)) reply.now).answer }
        ensures packet { IsPacket (take result.packet out.new) }
        ensures most { IsWritten result }
        ensures within { result.lent ≤ length (said (item_of packet.now words.now)).words }
        ensures none { lends self.now ≡ false → result.lent ≡ 0 }
        ensures page { length page.new ≡ 512 };

    /// Puts what an answer says to the k-th ask at the end of the replies, where that asked the device. `before` is the packet that came just before it, where
    /// that was no answer, and else empty.
    fn keep_result(
        &self,
        k: u32,
        before: &[u64],
        before_words: &[u64],
        packet: &[u64],
        words: &[u64],
        replies: &mut Vec<Self::Reply>,
    )
        requires which { k < length (asks self.now) }
        requires before { before.now ≡ [] ⊎ IsPacket before.now }
        requires before_words { length before_words.now ≤ 512 }
        requires packet { IsPacket packet.now }
        requires words { length words.now ≤ 512 }
        requires room { vec_len replies.old < vec_capacity replies.old }
        ensures told { (a : Self.Ask) → slice_get (asks self.now) k ≡ Some a → replies.new.items ≡ replies.old.items ++ listed ((format self.now).result a (item_in said before.now before_words.now) (said (item_of packet.now words.now))) }
        ensures one { vec_len replies.new ≤ vec_len replies.old + 1 }
        ensures capacity { vec_capacity replies.new ≡ vec_capacity replies.old };
}
