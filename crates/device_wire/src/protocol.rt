//! The protocol of a channel of one kind of device.
ghost use Rattle.std.specs.Prelude.{◌≡◌, ◌≤◌, ◌<◌, ◌^◌, ℕ, length};
ghost use Rattle.std.specs.List.{AllByRecursion};
ghost use Rattle.device_wire.specs.WireModels.{startup_in};

use crate::{BufferLists, Want, Wire};
use channel_protocol::{Protocol, Written};
use std::marker::Model;

/// The part of an end in the protocol of a channel: the kind of the channel, its number among the device's channels, how many are beside the first one, the page
/// lists of its buffers, and what the script asks on it. The end that serves asks nothing.
///
/// The first channel asks the steps of its kind's start-up first, in order. A sub-channel has no start-up.
#[derive(Drop)]
pub struct ChannelProtocol<W: Wire> {
    kind: W,
    sub: u32,
    subs: u32,
    lists: BufferLists,
    asks: Vec<W::Request>,
}

impl<W: Wire> Model for ChannelProtocol<W> {
    ghost use Rattle.std.specs.Prelude.{◌≤◌};
    ghost use Rattle.device_wire.specs.EndScripts.{EndScript, CanAskAll};

    ghost Value = { EndScript W W.Request };

    ghost view = { λ t. record { kind = t.kind; sub = t.sub; subs = t.subs; lists = t.lists; asks = t.asks.items } };

    ghost invariant = { λ t. CanAskAll (W.can t.kind) t.asks.items × (t.subs ≤ 3) };
}

impl<W: Wire> ChannelProtocol<W> {
    /// The protocol of a channel of this kind on which this is asked. The end that asks tells these page lists.
    pub fn make(
        kind: W,
        sub: u32,
        subs: u32,
        lists: BufferLists,
        asks: Vec<W::Request>,
    ) -> ChannelProtocol<W>
        requires subs { subs ≤ 3 }
        requires can { AllByRecursion (W.can kind) asks.items }
        requires few { length asks.items < 2 ^ 31 }
        ensures { result ≡ record { kind = kind; sub = sub; subs = subs; lists = lists; asks = asks.items } }
    {
        ChannelProtocol {
            kind,
            sub,
            subs,
            lists,
            asks,
        }
    }

    // How many steps the start-up of this channel has.
    fn count_starts(&self) -> u32
        ensures value { result ≡ length (startup_in (W.model self.now.kind) self.now.sub self.now.subs self.now.lists) }
        ensures few { result ≤ 5 }
        ensures first { (k : ℕ) → k < result → k < length ((W.model self.now.kind).steps self.now.subs self.now.lists) }
    {
        if self.sub == 0 {
            self.kind.count_steps(self.subs)
        } else {
            0
        }
    }
}

impl<W: Wire> Protocol for ChannelProtocol<W> {
    ghost use Rattle.std.specs.Prelude.{◌≤◌, length, map};
    ghost use Rattle.std.proofs.Common.{length-append, subst, sym};
    ghost use Rattle.std.proofs.Math.Nat.{le-add_right};
    ghost use Rattle.device_wire.specs.WireModels.{startup_in};
    ghost use Rattle.device_wire.specs.EndScripts.{asks_in};
    ghost use Rattle.device_wire.specs.declared.want.Want.TheVariants.{Request as RequestWant};

    type Ask = Want<W::Step, W::Request>;

    type Request = W::Request;

    type Reply = W::Reply;

    type Head = W::Head;

    ghost is_head = { λ s i h. W.is_head s.kind i h };

    ghost said = { W.said };

    ghost said_packet = { W.said_packet };

    ghost said_few = { W.said_few };

    ghost said_bare = { W.said_bare };

    ghost format = { λ s. (W.model s.kind).format };

    ghost lends = { λ s. (W.model s.kind).lends };

    ghost paged = { λ s e. (W.kept s.kind).paged e };

    ghost keeps = { λ s. (W.kept s.kind).keeps };

    ghost besides = { λ s. (W.model s.kind).besides };

    ghost may = { λ s. (W.kept s.kind).may };

    ghost asks = { λ s. asks_in (W.model s.kind) s };

    ghost starts = { λ s. length (startup_in (W.model s.kind) s.sub s.subs s.lists) };

    ghost within = { λ s. subst (λ n. length (startup_in (W.model s.kind) s.sub s.subs s.lists) ≤ n) (sym (length-append (startup_in (W.model s.kind) s.sub s.subs s.lists) (map RequestWant s.asks))) (le-add_right (length (startup_in (W.model s.kind) s.sub s.subs s.lists)) (length (map RequestWant s.asks))) };

    fn count(&self) -> u32 {
        self.count_starts() + self.asks.len() as u32
    }

    fn starts(&self) -> u32 {
        self.count_starts()
    }

    fn besides(&self) -> bool {
        self.kind.besides()
    }

    /// Each request that can be asked has an answer, and a step of the start-up as its kind says.
    fn has_answer(&self, k: u32) -> bool {
        if k < self.count_starts() {
            let step = self.kind.step(self.subs, self.lists, k);
            return self.kind.is_answered(&step);
        }
        true
    }

    fn encode(&self, k: u32, id: u64, out: &mut [u64], page: &mut [u64]) -> Written {
        let starts = self.count_starts();
        if k < starts {
            let step = self.kind.step(self.subs, self.lists, k);
            return self.kind.write_step(&step, id, out, page);
        }
        self.kind
            .write_request(&self.asks[(k - starts) as usize], id, out, page)
    }

    fn id(&self, packet: &[u64]) -> u64 {
        packet[1]
    }

    fn is_waiting(&self, packet: &[u64]) -> bool {
        self.kind.is_waiting(packet)
    }

    fn is_ack(&self, packet: &[u64]) -> bool {
        self.kind.is_ack(packet)
    }

    fn is_answer(&self, packet: &[u64]) -> bool {
        self.kind.is_answer(packet)
    }

    fn is_message(&self, packet: &[u64]) -> bool {
        self.kind.is_message(packet)
    }

    fn write_ack(&self, packet: &[u64], out: &mut [u64]) -> usize {
        self.kind.write_ack(packet, out)
    }

    fn head(&self, packet: &[u64], words: &[u64]) -> Option<W::Head> {
        self.kind.head(packet, words)
    }

    fn read(&self, packet: &[u64], words: &[u64], head: &W::Head) -> W::Request {
        self.kind.read(packet, words, head)
    }

    fn has_fixed_message(&self, packet: &[u64], words: &[u64]) -> bool {
        self.kind.has_fixed_message(packet, words)
    }

    fn write_fixed_message(
        &self,
        packet: &[u64],
        words: &[u64],
        own: u64,
        out: &mut [u64],
        page: &mut [u64],
    ) -> Written {
        self.kind.write_fixed_message(packet, words, own, out, page)
    }

    fn write_fixed(&self, packet: &[u64], words: &[u64], out: &mut [u64]) -> usize {
        self.kind.write_fixed(packet, words, out)
    }

    fn has_message(&self, packet: &[u64], words: &[u64], reply: &W::Reply) -> bool {
        self.kind.has_message(packet, words, reply)
    }

    fn write_message(
        &self,
        packet: &[u64],
        words: &[u64],
        reply: &W::Reply,
        own: u64,
        out: &mut [u64],
        page: &mut [u64],
    ) -> Written {
        self.kind
            .write_message(packet, words, reply, own, out, page)
    }

    fn write_answer(
        &self,
        packet: &[u64],
        words: &[u64],
        head: &W::Head,
        reply: &W::Reply,
        out: &mut [u64],
        page: &mut [u64],
    ) -> Written {
        self.kind
            .write_answer(packet, words, head, reply, out, page)
    }

    /// A step of the start-up asks nothing of the device.
    fn keep_result(
        &self,
        k: u32,
        before: &[u64],
        before_words: &[u64],
        packet: &[u64],
        words: &[u64],
        replies: &mut Vec<W::Reply>,
    ) {
        if k < self.count_starts() {
            return;
        }
        if let Some(head) = self.kind.answer_head(before, before_words, packet, words) {
            replies.push_reserved(self.kind.reply(before, before_words, packet, words, &head));
        }
    }
}
