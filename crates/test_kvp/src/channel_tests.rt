//! The channel of a key-value service: what is asked and answered, and messages that are refused.
ghost use Rattle.std.specs.Prelude.{◌≡◌, ◌≤◌, ◌<◌, length};
ghost use Rattle.ring_machine.specs.States.{IsPacket};
ghost use Rattle.device_kinds.specs.Formats.{asks_of};
ghost use Rattle.contact.specs.declared.kind.DeviceKind.TheVariants.{Kvp as KvpKind};

use crate::check::check;
use crate::texts::{key, of, value};
use bus_script::{Ask, Reply};
use channel_protocol::Protocol;
use contact::DeviceKind;
use device_any::{DeviceProtocol, DeviceWire, is_askable};
use device_wire::BufferLists;
use hist_lock::Machine;
use kvp_ic::{Kvp, KvpMachine, KvpReply, encode};
use kvp_pool::Units;
use pkt_desc::build_inband;
use std::alloc::Global;
use std::process::Abort;
use std::test::Fail;

// Whether a text has these units, where there is one.
fn has<const MIN: usize, const MAX: usize>(
    text: &Option<Units<MIN, MAX>>,
    units: Option<&[u16]>,
) -> bool {
    match (text, units) {
        (Some(text), Some(units)) => text.units() == units,
        (None, None) => true,
        _ => false,
    }
}

// The protocol of a channel on which this is asked.
fn protocol_of(rt: &impl Abort, alloc: Global, request: Kvp) -> DeviceProtocol
    ensures { result.kind ≡ KvpKind }
{
    let Ok(mut asks) = Vec::with_capacity(alloc, 1) else {
        panic!(rt; "no memory")
    };
    let ask = Ask::Kvp(request);
    check(rt, is_askable(DeviceKind::Kvp, &ask));
    check(rt, asks.push(ask).is_ok());
    DeviceProtocol::make(
        DeviceWire::of(DeviceKind::Kvp),
        0,
        0,
        BufferLists::NONE,
        asks,
    )
}

// What an answer says to the k-th ask, if it says something.
fn said(
    rt: &impl Abort,
    alloc: Global,
    protocol: &DeviceProtocol,
    k: u32,
    packet: &[u64],
) -> Option<Reply>
    requires which { k < length (asks_of protocol.now) }
    requires packet { IsPacket packet.now }
{
    let Ok(mut replies) = Vec::with_capacity(alloc, 1) else {
        panic!(rt; "no memory")
    };
    protocol.keep_result(k, &[], &[], packet, &[], &mut replies);
    replies.pop()
}

// What is asked of the service, and what the host reads in the answer.
#[tactic(auto, using(crate::proofs::Fitting::kvp_reply_fits))]
fn round(rt: &impl Abort, alloc: Global, machine: &mut KvpMachine, request: Kvp) -> KvpReply {
    let protocol = protocol_of(rt, alloc, request);
    let mut words = [0; 384];
    check(rt, (protocol.count(), protocol.starts()) == (2, 1));
    let len = protocol.encode(1, 5, &mut words, &mut [0; 512]).packet;
    let packet = &words[..len];
    check(rt, protocol.is_waiting(packet));
    let Some(head) = protocol.head(packet, &[]) else {
        panic!(rt; "nothing is asked")
    };
    let Ask::Kvp(asked) = protocol.read(packet, &[], &head) else {
        panic!(rt; "another device is asked")
    };
    let reply = Reply::Kvp(machine.apply(&asked));
    let mut out = [0; 384];
    let back = protocol.write_answer(packet, &[], &head, &reply, &mut out, &mut [0; 512]);
    let back = back.packet;
    check(rt, back == len);
    check(rt, protocol.id(&out[..back]) == 5);
    match said(rt, alloc, &protocol, 1, &out[..back]) {
        Some(Reply::Kvp(reply)) => reply,
        _ => panic!(rt; "no reply"),
    }
}

const COLOR: [u16; 5] = [99, 111, 108, 111, 114];

const BLUE: [u16; 4] = [98, 108, 117, 101];

#[test]
fn a_pair_goes_there_and_back(rt: HostRuntime) -> Result<(), Fail> {
    let alloc = rt.alloc();
    let mut machine = KvpMachine::make(alloc)?;
    let set = Kvp::Set {
        pool: 1,
        key: key(&rt, "color"),
        value: value(&rt, "blue"),
    };
    let reply = round(&rt, alloc, &mut machine, set);
    check(
        &rt,
        reply.status == 0 && has(&reply.key, None) && has(&reply.value, None),
    );
    let get = Kvp::Get {
        pool: 1,
        key: key(&rt, "color"),
    };
    let reply = round(&rt, alloc, &mut machine, get);
    check(
        &rt,
        reply.status == 0 && has(&reply.key, None) && has(&reply.value, Some(&BLUE)),
    );
    let first = Kvp::Enum { pool: 1, index: 0 };
    let reply = round(&rt, alloc, &mut machine, first);
    check(
        &rt,
        reply.status == 0 && has(&reply.key, Some(&COLOR)) && has(&reply.value, Some(&BLUE)),
    );
    let delete = Kvp::Delete {
        pool: 0,
        key: key(&rt, "color"),
    };
    let reply = round(&rt, alloc, &mut machine, delete);
    check(
        &rt,
        reply.status == 0x8007_0103 && has(&reply.key, None) && has(&reply.value, None),
    );
    Ok(())
}

// The longest key, and the longest value.
#[test]
fn the_longest_pair_goes_there_and_back(rt: HostRuntime) -> Result<(), Fail> {
    let alloc = rt.alloc();
    let mut machine = KvpMachine::make(alloc)?;
    let set = Kvp::Set {
        pool: 4,
        key: of(&rt, &[0xffff; 255]),
        value: of(&rt, &[0x0101; 1023]),
    };
    check(&rt, round(&rt, alloc, &mut machine, set).status == 0);
    let first = Kvp::Enum { pool: 4, index: 0 };
    let reply = round(&rt, alloc, &mut machine, first);
    check(&rt, reply.status == 0);
    check(&rt, has(&reply.key, Some(&[0xffff; 255])));
    check(&rt, has(&reply.value, Some(&[0x0101; 1023])));
    Ok(())
}

// The first so many of these bytes ask nothing, and the answer has this status and flags 5.
fn is_refused(
    rt: &impl Abort,
    protocol: &DeviceProtocol,
    bytes: &[u8; 2608],
    count: usize,
    status: u64,
)
    requires kind { protocol.now.kind ≡ KvpKind }
    requires within { count ≤ 2608 }
{
    let mut words = [0; 384];
    let len = build_inband(&mut words, 9, 0, &bytes[..count]);
    let packet = &words[..len];
    check(rt, protocol.is_waiting(packet));
    check(rt, protocol.head(packet, &[]).is_none());
    let mut out = [0; 384];
    let back = protocol.write_fixed(packet, &[], &mut out);
    check(rt, back >= 6);
    check(rt, protocol.id(&out[..back]) == 9);
    check(rt, out[4] >> 32 == status);
    check(rt, out[5] >> 8 & 0xff == 5);
}

// A set of `ab` to `xyz` in pool 2, with a byte changed.
fn changed(rt: &impl Abort, at: usize, byte: u8) -> [u8; 2608] {
    let mut bytes = [0; 2608];
    let m = Kvp::Set {
        pool: 2,
        key: key(rt, "ab"),
        value: value(rt, "xyz"),
    };
    check(rt, encode(&m, &mut bytes) == 2604);
    check(rt, at < 2604);
    bytes[at] = byte;
    bytes
}

const INVALID: u64 = 0x8007_0057;

const FAIL: u64 = 0x8000_4005;

#[test]
fn each_fault_is_answered(rt: HostRuntime) {
    let protocol = protocol_of(&rt, rt.alloc(), Kvp::Enum { pool: 0, index: 0 });
    // Too few bytes, an operation, a pool, a size of a key and of a value, and a text of a key and of a value.
    let whole = changed(&rt, 0, 0);
    is_refused(&rt, &protocol, &whole, 2600, INVALID);
    is_refused(&rt, &protocol, &whole, 28, INVALID);
    is_refused(&rt, &protocol, &changed(&rt, 28, 4), 2608, INVALID);
    is_refused(&rt, &protocol, &changed(&rt, 29, 5), 2608, INVALID);
    is_refused(&rt, &protocol, &changed(&rt, 36, 5), 2608, INVALID);
    is_refused(&rt, &protocol, &changed(&rt, 40, 0), 2608, INVALID);
    is_refused(&rt, &protocol, &changed(&rt, 44, 0), 2608, INVALID);
    is_refused(&rt, &protocol, &changed(&rt, 562, 1), 2608, INVALID);
    // No key-value message: too short for its headers, or of another type.
    is_refused(&rt, &protocol, &whole, 24, FAIL);
    is_refused(&rt, &protocol, &changed(&rt, 12, 3), 2608, FAIL);
}

#[test]
fn the_start_up_is_answered(rt: HostRuntime) {
    let alloc = rt.alloc();
    let protocol = protocol_of(&rt, alloc, Kvp::Enum { pool: 0, index: 0 });
    let mut words = [0; 384];
    check(&rt, (protocol.count(), protocol.starts()) == (2, 1));
    let len = protocol.encode(0, 4, &mut words, &mut [0; 512]).packet;
    let packet = &words[..len];
    check(&rt, protocol.is_waiting(packet));
    check(&rt, protocol.head(packet, &[]).is_none());
    let mut out = [0; 384];
    let back = protocol.write_fixed(packet, &[], &mut out);
    check(&rt, back == len);
    check(&rt, protocol.id(&out[..back]) == 4);
    check(&rt, out[4] >> 32 == 0);
    check(&rt, said(&rt, alloc, &protocol, 0, &out[..back]).is_none());
}

#[test]
fn a_pool_that_is_not_there_is_not_asked(rt: HostRuntime) {
    check(
        &rt,
        !is_askable(DeviceKind::Kvp, &Ask::Kvp(Kvp::Enum { pool: 5, index: 0 })),
    );
    check(
        &rt,
        !is_askable(DeviceKind::Beat, &Ask::Kvp(Kvp::Enum { pool: 4, index: 0 })),
    );
    device_kinds::laws::requests_can_be_asked();
    device_kinds::laws::replies_fit();
    kvp_format::laws::a_refused_message_asks_nothing();
    kvp_format::laws::another_message_is_served();
}
