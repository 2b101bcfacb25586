//! A key-value service on its channel.

use crate::pairs::{
    asked, said, write_negotiate, write_pair_answer, write_pair_ask, write_pair_fixed,
};
use channel_protocol::Written;
use device_packets::is_inband;
use device_wire::{BufferLists, Wire};
use kvp_format::KvpStep;
use kvp_ic::{Kvp, KvpReply};

/// How the packets of a key-value service's channel are written and read: the host asks with in-band packets, and the guest answers each with one.
#[derive(Clone, Copy, Drop)]
pub struct KvpWire;

impl Wire for KvpWire {
    ghost use Rattle.std.specs.Prelude.{◌≡◌, true, false, refl, IsSome};
    ghost use Rattle.device_packets.specs.Said.{said_item};
    ghost use Rattle.device_packets.proofs.SaidLaws.{said_few as few_said, said_bare as bare_said};
    ghost use Rattle.kvp_ic.specs.Messages.{CanBeAsked};
    ghost use Rattle.kvp_format.specs.Pairs.{kvp_model, pair_result};
    ghost use Rattle.kvp_format.proofs.PairLaws.{pair_kept};

    type Step = KvpStep;

    type Request = Kvp;

    type Reply = KvpReply;

    type Head = ();

    type AnswerHead = ();

    ghost said = { said_item };

    ghost said_packet = { λ i. refl };

    ghost said_few = { λ i. few_said i };

    ghost said_bare = { λ p. bare_said p };

    ghost model = { λ w. kvp_model };

    ghost can = { λ w. CanBeAsked };

    ghost kept = { λ w. pair_kept };

    ghost is_head = { λ w i h. Unit {0} };

    ghost is_answer_head = { λ w before i h. IsSome (pair_result i.packet) };

    fn besides(&self) -> bool {
        false
    }

    fn count_steps(&self, _subs: u32) -> u32
        ensures { result ≡ 1 }
    {
        1
    }

    fn step(&self, _subs: u32, _lists: BufferLists, _k: u32) -> KvpStep {
        KvpStep::Negotiate
    }

    fn is_answered(&self, _step: &KvpStep) -> bool {
        true
    }

    fn write_step(&self, _step: &KvpStep, id: u64, out: &mut [u64], _page: &mut [u64]) -> Written {
        Written::bare(write_negotiate(id, out))
    }

    fn write_request(&self, ask: &Kvp, id: u64, out: &mut [u64], _page: &mut [u64]) -> Written {
        Written::bare(write_pair_ask(ask, id, out))
    }

    fn is_waiting(&self, packet: &[u64]) -> bool {
        is_inband(packet)
    }

    fn is_ack(&self, _packet: &[u64]) -> bool
        ensures { result ≡ false }
    {
        false
    }

    fn is_answer(&self, _packet: &[u64]) -> bool
        ensures { result ≡ true }
    {
        true
    }

    fn is_message(&self, _packet: &[u64]) -> bool
        ensures { result ≡ false }
    {
        false
    }

    fn write_ack(&self, _packet: &[u64], _out: &mut [u64]) -> usize {
        0
    }

    // A request is read twice, so that no head of another kind has its size.
    fn head(&self, packet: &[u64], _words: &[u64]) -> Option<()> {
        match asked(packet) {
            Some(_) => Some(()),
            None => None,
        }
    }

    fn read(&self, packet: &[u64], _words: &[u64], _head: &()) -> Kvp {
        let Some(request) = asked(packet) else {
            unreachable!()
        };
        request
    }

    fn has_fixed_message(&self, _packet: &[u64], _words: &[u64]) -> bool {
        false
    }

    fn write_fixed_message(
        &self,
        _packet: &[u64],
        _words: &[u64],
        _own: u64,
        _out: &mut [u64],
        _page: &mut [u64],
    ) -> Written {
        Written::bare(0)
    }

    fn write_fixed(&self, packet: &[u64], _words: &[u64], out: &mut [u64]) -> usize {
        if !is_inband(packet) {
            return 0;
        }
        if asked(packet).is_some() {
            return 0;
        }
        write_pair_fixed(packet, out)
    }

    fn has_message(&self, _packet: &[u64], _words: &[u64], _reply: &KvpReply) -> bool {
        false
    }

    fn write_message(
        &self,
        _packet: &[u64],
        _words: &[u64],
        _reply: &KvpReply,
        _own: u64,
        _out: &mut [u64],
        _page: &mut [u64],
    ) -> Written {
        Written::bare(0)
    }

    fn write_answer(
        &self,
        packet: &[u64],
        _words: &[u64],
        _head: &(),
        reply: &KvpReply,
        out: &mut [u64],
        _page: &mut [u64],
    ) -> Written {
        Written::bare(write_pair_answer(packet, reply, out))
    }

    fn answer_head(
        &self,
        _before: &[u64],
        _before_words: &[u64],
        packet: &[u64],
        _words: &[u64],
    ) -> Option<()> {
        match said(packet) {
            Some(_) => Some(()),
            None => None,
        }
    }

    fn reply(
        &self,
        _before: &[u64],
        _before_words: &[u64],
        packet: &[u64],
        _words: &[u64],
        _head: &(),
    ) -> KvpReply {
        let Some(reply) = said(packet) else {
            unreachable!()
        };
        reply
    }
}
