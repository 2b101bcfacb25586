//! The wire of a device of any kind.
ghost use Rattle.std.specs.Prelude.{◌≡◌};

use crate::{DeviceAnswer, DeviceHead};
use bus_script::{Ask, Reply};
use channel_protocol::Written;
use contact::DeviceKind;
use device_disk::DiskWire;
use device_ic::IcWire;
use device_kinds::DeviceStep;
use device_kvp::KvpWire;
use device_net::{NetWire, write_done, write_net_message};
use device_wire::{BufferLists, ChannelProtocol, Wire};
use disk_format::DiskStep;
use ic_format::IcStep;
use kvp_format::KvpStep;
use net_dev::NetReply;
use net_format::NetStep;
use std::marker::Model;

/// How the packets of a device of any kind are written and read: each call is that of the kind's own wire.
#[derive(Drop)]
pub struct DeviceWire {
    kind: DeviceKind,
}

/// The protocol of a channel of any kind.
pub type DeviceProtocol = ChannelProtocol<DeviceWire>;

impl Model for DeviceWire {
    ghost use Rattle.contact.specs.declared.kind.DeviceKind.{DeviceKind};

    ghost Value = { DeviceKind };

    ghost view = { λ w. w.kind };
}

impl DeviceWire {
    /// That of a device of this kind.
    pub fn of(kind: DeviceKind) -> DeviceWire
        ensures { result ≡ kind }
    {
        DeviceWire { kind }
    }
}

// What is done with a kind's own wire: with no more; with what the kind has in a value of all kinds, or with the step that it has there, where that of another kind counts as the first one;
// with the reply that is answered, where an adapter's is told by its status; and what comes of it as a case of what comes of those of all kinds. An arm that gives a reply returns by
// itself, so that this is not moved through the value of the `match`.
macro_rules! on_wire {
    (same, $case:ident, $own:expr, $first:expr, $wire:ident, $call:expr) => {{
        let $wire = $own;
        $call
    }};
    ((of $all:ident $value:expr, $part:ident, $how:tt), $case:ident, $own:expr, $first:expr, $wire:ident, $call:expr) => {{
        let $all::$case($part) = $value else {
            unreachable!()
        };
        on_wire!($how, $case, $own, $first, $wire, $call)
    }};
    ((step $value:expr, $part:ident), $case:ident, $own:expr, $first:expr, $wire:ident, $call:expr) => {{
        let step = match $value {
            DeviceStep::$case(step) => *step,
            _ => $first,
        };
        let $part = &step;
        on_wire!(same, $case, $own, $first, $wire, $call)
    }};
    ((answer $head:expr, $part:ident, $reply:expr, $told:ident, $status:ident => $done:expr), Net, $own:expr, $first:expr, $wire:ident, $call:expr) => {{
        let Reply::Net {
            status: $status, ..
        } = $reply
        else {
            unreachable!()
        };
        $done
    }};
    ((answer $head:expr, $part:ident, $reply:expr, $told:ident, $status:ident => $done:expr), $case:ident, $own:expr, $first:expr, $wire:ident, $call:expr) => {
        on_wire!((of DeviceHead $head, $part, (of Reply $reply, $told, same)), $case, $own, $first, $wire, $call)
    };
    ((Some $all:ident), $case:ident, $own:expr, $first:expr, $wire:ident, $call:expr) => {{
        let $wire = $own;
        match $call {
            Some(own) => Some($all::$case(own)),
            None => None,
        }
    }};
    (reply, Net, $own:expr, $first:expr, $wire:ident, $call:expr) => {{
        let $wire = $own;
        let NetReply { status, back } = $call;
        return Reply::Net { status, back };
    }};
    (reply, $case:ident, $own:expr, $first:expr, $wire:ident, $call:expr) => {{
        let $wire = $own;
        return Reply::$case($call);
    }};
    ($all:ident, $case:ident, $own:expr, $first:expr, $wire:ident, $call:expr) => {{
        let $wire = $own;
        $all::$case($call)
    }};
}

// What is done with the wire of a kind, whatever kind it is.
macro_rules! own_wire {
    ($kind:expr, $how:tt, $wire:ident => $call:expr) => {
        match $kind {
            DeviceKind::Beat | DeviceKind::Down => {
                on_wire!($how, Ic, IcWire::of($kind), IcStep::Negotiate, $wire, $call)
            }
            DeviceKind::Disk => on_wire!($how, Disk, DiskWire, DiskStep::Begin, $wire, $call),
            DeviceKind::Net => on_wire!($how, Net, NetWire, NetStep::Init, $wire, $call),
            DeviceKind::Kvp => on_wire!($how, Kvp, KvpWire, KvpStep::Negotiate, $wire, $call),
        }
    };
}

impl Wire for DeviceWire {
    ghost use Rattle.std.specs.Prelude.{refl};
    ghost use Rattle.device_packets.specs.Said.{said_item};
    ghost use Rattle.device_packets.proofs.SaidLaws.{said_few as few_said, said_bare as bare_said};
    ghost use Rattle.device_kinds.specs.Kinds.{model_of, IsAskable};
    ghost use Rattle.device_kinds.proofs.KindLaws.{kept_by};
    ghost use Rattle.device_any.specs.Heads.{IsHead, IsAnswerHead};

    type Step = DeviceStep;

    type Request = Ask;

    type Reply = Reply;

    type Head = DeviceHead;

    type AnswerHead = DeviceAnswer;

    ghost said = { said_item };

    ghost said_packet = { λ i. refl };

    ghost said_few = { λ i. few_said i };

    ghost said_bare = { λ p. bare_said p };

    ghost model = { model_of };

    ghost can = { IsAskable };

    ghost kept = { kept_by };

    ghost is_head = { IsHead };

    ghost is_answer_head = { IsAnswerHead };

    fn besides(&self) -> bool {
        own_wire!(self.kind, same, wire => wire.besides())
    }

    fn count_steps(&self, subs: u32) -> u32 {
        own_wire!(self.kind, same, wire => wire.count_steps(subs))
    }

    fn step(&self, subs: u32, lists: BufferLists, k: u32) -> DeviceStep {
        own_wire!(self.kind, DeviceStep, wire => wire.step(subs, lists, k))
    }

    fn is_answered(&self, step: &DeviceStep) -> bool {
        own_wire!(self.kind, (step step, own), wire => wire.is_answered(own))
    }

    fn write_step(&self, step: &DeviceStep, id: u64, out: &mut [u64], page: &mut [u64]) -> Written {
        own_wire!(self.kind, (step step, own), wire => wire.write_step(own, id, out, page))
    }

    fn write_request(&self, ask: &Ask, id: u64, out: &mut [u64], page: &mut [u64]) -> Written {
        own_wire!(self.kind, (of Ask ask, own, same), wire => wire.write_request(own, id, out, page))
    }

    fn is_waiting(&self, packet: &[u64]) -> bool {
        own_wire!(self.kind, same, wire => wire.is_waiting(packet))
    }

    fn is_ack(&self, packet: &[u64]) -> bool {
        own_wire!(self.kind, same, wire => wire.is_ack(packet))
    }

    fn is_answer(&self, packet: &[u64]) -> bool {
        own_wire!(self.kind, same, wire => wire.is_answer(packet))
    }

    fn is_message(&self, packet: &[u64]) -> bool {
        own_wire!(self.kind, same, wire => wire.is_message(packet))
    }

    fn write_ack(&self, packet: &[u64], out: &mut [u64]) -> usize {
        own_wire!(self.kind, same, wire => wire.write_ack(packet, out))
    }

    fn head(&self, packet: &[u64], words: &[u64]) -> Option<DeviceHead> {
        own_wire!(self.kind, (Some DeviceHead), wire => wire.head(packet, words))
    }

    fn read(&self, packet: &[u64], words: &[u64], head: &DeviceHead) -> Ask {
        own_wire!(self.kind, (of DeviceHead head, own, Ask), wire => wire.read(packet, words, own))
    }

    fn has_fixed_message(&self, packet: &[u64], words: &[u64]) -> bool {
        own_wire!(self.kind, same, wire => wire.has_fixed_message(packet, words))
    }

    fn write_fixed_message(
        &self,
        packet: &[u64],
        words: &[u64],
        own: u64,
        out: &mut [u64],
        page: &mut [u64],
    ) -> Written {
        own_wire!(self.kind, same, wire => wire.write_fixed_message(packet, words, own, out, page))
    }

    fn write_fixed(&self, packet: &[u64], words: &[u64], out: &mut [u64]) -> usize {
        own_wire!(self.kind, same, wire => wire.write_fixed(packet, words, out))
    }

    /// A network's alone has one.
    fn has_message(&self, _packet: &[u64], _words: &[u64], reply: &Reply) -> bool {
        match reply {
            Reply::Net { back, .. } => back.is_some(),
            _ => false,
        }
    }

    fn write_message(
        &self,
        _packet: &[u64],
        _words: &[u64],
        reply: &Reply,
        own: u64,
        out: &mut [u64],
        page: &mut [u64],
    ) -> Written {
        match reply {
            Reply::Net { back, .. } => write_net_message(back, own, out, page),
            _ => Written::bare(0),
        }
    }

    fn write_answer(
        &self,
        packet: &[u64],
        words: &[u64],
        head: &DeviceHead,
        reply: &Reply,
        out: &mut [u64],
        page: &mut [u64],
    ) -> Written {
        own_wire!(self.kind, (answer head, own, reply, told, status => Written::bare(write_done(packet[1], *status, out))), wire => wire.write_answer(packet, words, own, told, out, page))
    }

    fn answer_head(
        &self,
        before: &[u64],
        before_words: &[u64],
        packet: &[u64],
        words: &[u64],
    ) -> Option<DeviceAnswer> {
        own_wire!(self.kind, (Some DeviceAnswer), wire => wire.answer_head(before, before_words, packet, words))
    }

    fn reply(
        &self,
        before: &[u64],
        before_words: &[u64],
        packet: &[u64],
        words: &[u64],
        head: &DeviceAnswer,
    ) -> Reply {
        own_wire!(self.kind, (of DeviceAnswer head, own, reply), wire => wire.reply(before, before_words, packet, words, own))
    }
}
