//! A network on its channel.

use crate::nets::{
    Came, initialize, request_id, status, under, what_came, write_done, write_init, write_receive,
    write_send, write_version,
};
use crate::page_nets::{
    asked_in, back, begins, message, taken, write_complete, write_net_fixed, write_net_message,
    write_sent,
};
use channel_protocol::Written;
use device_packets::{COMPLETION, TRANSFER, is_type};
use device_wire::{BufferLists, Wire};
use net_dev::NetReply;
use net_format::NetStep;
use rndis_msg::Rndis;

/// How the packets of a network's channel are written and read.
#[derive(Clone, Copy, Drop)]
pub struct NetWire;

impl Wire for NetWire {
    ghost use Rattle.std.specs.Prelude.{◌≡◌, refl, Some};
    ghost use Rattle.device_packets.specs.Said.{said_item};
    ghost use Rattle.device_packets.proofs.SaidLaws.{said_few as few_said, said_bare as bare_said};
    ghost use Rattle.net_format.specs.Nets.{IsNetAsk};
    ghost use Rattle.net_format.specs.PageNets.{net_model};
    ghost use Rattle.device_net.specs.Came.{status_in};
    ghost use Rattle.net_format.proofs.NetPageLaws.{page_kept};

    type Step = NetStep;

    type Request = Rndis;

    type Reply = NetReply;

    type Head = ();

    type AnswerHead = u32;

    ghost said = { said_item };

    ghost said_packet = { λ i. refl };

    ghost said_few = { λ i. few_said i };

    ghost said_bare = { λ p. bare_said p };

    ghost model = { λ w. net_model };

    ghost can = { λ w. IsNetAsk };

    ghost kept = { λ w. page_kept };

    ghost is_head = { λ w i h. Unit {0} };

    ghost is_answer_head = { λ w before i h. status_in i.packet ≡ Some h };

    fn besides(&self) -> bool {
        true
    }

    fn count_steps(&self, _subs: u32) -> u32 {
        5
    }

    fn step(&self, _subs: u32, lists: BufferLists, k: u32) -> NetStep {
        match k {
            0 => NetStep::Init,
            1 => NetStep::Version,
            2 => NetStep::ReceiveList(lists.receive),
            3 => NetStep::SendList(lists.send),
            _ => NetStep::Initialize,
        }
    }

    fn is_answered(&self, step: &NetStep) -> bool {
        !matches!(step, NetStep::Version)
    }

    fn write_step(&self, step: &NetStep, id: u64, out: &mut [u64], page: &mut [u64]) -> Written {
        match *step {
            NetStep::Init => Written::bare(write_init(id, out)),
            NetStep::Version => Written::bare(write_version(out)),
            NetStep::ReceiveList(handle) => Written::bare(write_receive(id, handle, out)),
            NetStep::SendList(handle) => Written::bare(write_send(id, handle, out)),
            NetStep::Initialize => write_sent(id, &initialize(id), out, page),
        }
    }

    /// The message stands in the page.
    fn write_request(
        &self,
        message: &Rndis,
        id: u64,
        out: &mut [u64],
        page: &mut [u64],
    ) -> Written {
        write_sent(id, &under(request_id(id), message), out, page)
    }

    /// An init, one that tells a page list, or one with a message.
    fn is_waiting(&self, packet: &[u64]) -> bool {
        match what_came(packet) {
            Came::Other => false,
            _ => true,
        }
    }

    fn is_ack(&self, packet: &[u64]) -> bool {
        is_type(packet, COMPLETION)
    }

    fn is_answer(&self, packet: &[u64]) -> bool {
        is_type(packet, COMPLETION)
    }

    fn is_message(&self, packet: &[u64]) -> bool {
        is_type(packet, TRANSFER)
    }

    /// One that names no page of the receive buffer failed.
    fn write_ack(&self, packet: &[u64], out: &mut [u64]) -> usize {
        write_done(packet[1], taken(packet), out)
    }

    fn head(&self, packet: &[u64], words: &[u64]) -> Option<()> {
        if asked_in(packet, words).is_some() {
            Some(())
        } else {
            None
        }
    }

    fn read(&self, packet: &[u64], words: &[u64], _head: &()) -> Rndis {
        let Some(message) = asked_in(packet, words) else {
            unreachable!()
        };
        message
    }

    /// For an initialize alone.
    fn has_fixed_message(&self, packet: &[u64], words: &[u64]) -> bool {
        match what_came(packet) {
            Came::Rndis => begins(&message(words)),
            _ => false,
        }
    }

    fn write_fixed_message(
        &self,
        packet: &[u64],
        words: &[u64],
        own: u64,
        out: &mut [u64],
        page: &mut [u64],
    ) -> Written {
        match what_came(packet) {
            Came::Rndis => write_complete(&message(words), own, out, page),
            _ => Written::bare(0),
        }
    }

    fn write_fixed(&self, packet: &[u64], words: &[u64], out: &mut [u64]) -> usize {
        write_net_fixed(packet, words, out)
    }

    fn has_message(&self, _packet: &[u64], _words: &[u64], reply: &NetReply) -> bool {
        reply.back.is_some()
    }

    fn write_message(
        &self,
        _packet: &[u64],
        _words: &[u64],
        reply: &NetReply,
        own: u64,
        out: &mut [u64],
        page: &mut [u64],
    ) -> Written {
        write_net_message(&reply.back, own, out, page)
    }

    fn write_answer(
        &self,
        packet: &[u64],
        _words: &[u64],
        _head: &(),
        reply: &NetReply,
        out: &mut [u64],
        _page: &mut [u64],
    ) -> Written {
        Written::bare(write_done(packet[1], reply.status, out))
    }

    fn answer_head(
        &self,
        _before: &[u64],
        _before_words: &[u64],
        packet: &[u64],
        _words: &[u64],
    ) -> Option<u32> {
        status(packet)
    }

    /// With the message that came just before it, where one did.
    fn reply(
        &self,
        before: &[u64],
        before_words: &[u64],
        _packet: &[u64],
        _words: &[u64],
        status: &u32,
    ) -> NetReply {
        NetReply {
            status: *status,
            back: back(before, before_words),
        }
    }
}
