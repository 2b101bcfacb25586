//! A utility service on its channel.
ghost use Rattle.std.specs.Prelude.{◌≡◌};
ghost use Rattle.util_ic.specs.Messages.{IsUtility};

use crate::services::{asked, said, write_ask, write_negotiate, write_service_answer};
use channel_protocol::Written;
use contact::DeviceKind;
use device_packets::is_inband;
use device_wire::{BufferLists, Wire};
use ic_format::IcStep;
use std::marker::Model;
use util_ic::{IcAnswer, IcAsk};

/// How the packets of a heartbeat's or a shutdown's channel are written and read: the host asks with in-band packets, and the guest answers each with one.
#[derive(Drop)]
pub struct IcWire {
    kind: DeviceKind,
}

impl Model for IcWire {
    ghost use Rattle.contact.specs.declared.kind.DeviceKind.{DeviceKind};
    ghost use Rattle.util_ic.specs.Messages.{IsUtility};

    ghost Value = { DeviceKind };

    ghost view = { λ w. w.kind };

    ghost invariant = { λ w. IsUtility w.kind };
}

impl IcWire {
    /// That of the service of this kind.
    pub fn of(kind: DeviceKind) -> IcWire
        requires { IsUtility kind }
        ensures { result ≡ kind }
    {
        IcWire { kind }
    }
}

impl Wire for IcWire {
    ghost use Rattle.std.specs.Prelude.{◌≡◌, refl, Some};
    ghost use Rattle.device_packets.specs.Said.{said_item};
    ghost use Rattle.device_packets.proofs.SaidLaws.{said_few as few_said, said_bare as bare_said};
    ghost use Rattle.ic_format.specs.Services.{ic_model, service_read, service_result, IsIcAsk};
    ghost use Rattle.ic_format.proofs.KindLaws.{service_kept};

    type Step = IcStep;

    type Request = IcAsk;

    type Reply = IcAnswer;

    type Head = IcAsk;

    type AnswerHead = IcAnswer;

    ghost said = { said_item };

    ghost said_packet = { λ i. refl };

    ghost said_few = { λ i. few_said i };

    ghost said_bare = { λ p. bare_said p };

    ghost model = { ic_model };

    ghost can = { IsIcAsk };

    ghost kept = { service_kept };

    ghost is_head = { λ kind i h. service_read kind i.packet ≡ Some h };

    ghost is_answer_head = { λ kind before i h. service_result kind i.packet ≡ Some h };

    fn besides(&self) -> bool {
        false
    }

    fn count_steps(&self, _subs: u32) -> u32 {
        1
    }

    fn step(&self, _subs: u32, _lists: BufferLists, _k: u32) -> IcStep {
        IcStep::Negotiate
    }

    fn is_answered(&self, _step: &IcStep) -> bool {
        true
    }

    fn write_step(&self, _step: &IcStep, id: u64, out: &mut [u64], _page: &mut [u64]) -> Written {
        Written::bare(write_negotiate(self.kind, id, out))
    }

    fn write_request(&self, ask: &IcAsk, id: u64, out: &mut [u64], _page: &mut [u64]) -> Written {
        Written::bare(write_ask(ask, id, out))
    }

    fn is_waiting(&self, packet: &[u64]) -> bool {
        is_inband(packet)
    }

    fn is_ack(&self, _packet: &[u64]) -> bool {
        false
    }

    fn is_answer(&self, _packet: &[u64]) -> bool {
        true
    }

    fn is_message(&self, _packet: &[u64]) -> bool {
        false
    }

    fn write_ack(&self, _packet: &[u64], _out: &mut [u64]) -> usize {
        0
    }

    fn head(&self, packet: &[u64], _words: &[u64]) -> Option<IcAsk> {
        asked(self.kind, packet)
    }

    fn read(&self, _packet: &[u64], _words: &[u64], ask: &IcAsk) -> IcAsk {
        *ask
    }

    fn has_fixed_message(&self, _packet: &[u64], _words: &[u64]) -> bool {
        false
    }

    fn write_fixed_message(
        &self,
        _packet: &[u64],
        _words: &[u64],
        _own: u64,
        _out: &mut [u64],
        _page: &mut [u64],
    ) -> Written {
        Written::bare(0)
    }

    fn write_fixed(&self, packet: &[u64], _words: &[u64], out: &mut [u64]) -> usize {
        if !is_inband(packet) {
            return 0;
        }
        if asked(self.kind, packet).is_some() {
            return 0;
        }
        write_service_answer(self.kind, packet, out)
    }

    fn has_message(&self, _packet: &[u64], _words: &[u64], _reply: &IcAnswer) -> bool {
        false
    }

    fn write_message(
        &self,
        _packet: &[u64],
        _words: &[u64],
        _reply: &IcAnswer,
        _own: u64,
        _out: &mut [u64],
        _page: &mut [u64],
    ) -> Written {
        Written::bare(0)
    }

    fn write_answer(
        &self,
        packet: &[u64],
        _words: &[u64],
        _head: &IcAsk,
        _reply: &IcAnswer,
        out: &mut [u64],
        _page: &mut [u64],
    ) -> Written {
        Written::bare(write_service_answer(self.kind, packet, out))
    }

    fn answer_head(
        &self,
        _before: &[u64],
        _before_words: &[u64],
        packet: &[u64],
        _words: &[u64],
    ) -> Option<IcAnswer> {
        said(self.kind, packet)
    }

    fn reply(
        &self,
        _before: &[u64],
        _before_words: &[u64],
        _packet: &[u64],
        _words: &[u64],
        answer: &IcAnswer,
    ) -> IcAnswer {
        *answer
    }
}
