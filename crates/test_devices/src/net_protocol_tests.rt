//! Packets of a network's channel, word by word, and back.
ghost use Rattle.std.specs.Prelude.{◌≡◌, ◌≤◌, length};
ghost use Rattle.ring_machine.specs.States.{IsPacket};
ghost use Rattle.contact.specs.declared.kind.DeviceKind.TheVariants.{Net as NetKind};

use crate::check::check;
use crate::said::said_behind;
use bus_script::{Ask, Reply};
use channel_protocol::Protocol;
use contact::DeviceKind;
use device_any::{DeviceProtocol, DeviceWire, is_askable};
use device_wire::BufferLists;
use hist_lock::Machine;
use net_dev::Station;
use rndis_msg::{Rndis, Small};
use std::alloc::Global;
use std::process::Abort;
use std::test::Fail;

/// The protocol of a network's channel on which this is asked, or nothing.
fn net_protocol(rt: &impl Abort, alloc: Global, message: Option<Rndis>) -> DeviceProtocol
    ensures { result.kind ≡ NetKind }
{
    let Ok(mut asks) = Vec::with_capacity(alloc, 1) else {
        panic!(rt; "no memory")
    };
    if let Some(message) = message {
        let ask = Ask::Net(message);
        check(rt, is_askable(DeviceKind::Net, &ask));
        check(rt, asks.push(ask).is_ok());
    }
    let lists = BufferLists {
        receive: 7,
        send: 8,
    };
    DeviceProtocol::make(DeviceWire::of(DeviceKind::Net), 0, 0, lists, asks)
}

/// An init of version 5.0, and an NDIS version 6.30.
const INIT: [u64; 7] = [
    0x0001_0007_0002_0006,
    40,
    0x0005_0000_0000_0001,
    0x0005_0000,
    0,
    0,
    0,
];

const NDIS: [u64; 7] = [0x0007_0002_0006, 0, 0x0000_0006_0000_0064, 30, 0, 0, 0];

/// The page list 7 is the receive buffer's, and the page list 8 is the send buffer's.
const RECEIVE: [u64; 7] = [
    0x0001_0007_0002_0006,
    40,
    0x0000_0007_0000_0065,
    0xcafe,
    0,
    0,
    0,
];

const SEND: [u64; 7] = [0x0001_0007_0002_0006, 40, 0x0000_0008_0000_0068, 0, 0, 0, 0];

/// An initialize of version 1.0 with 16,384 bytes, in section 39, and its 24 bytes.
const INITIALIZE: [u64; 7] = [
    0x0001_0007_0002_0006,
    40,
    0x0000_0001_0000_006b,
    0x0000_0018_0000_0027,
    0,
    0,
    0,
];

const INITIALIZE_BYTES: [u64; 3] = [
    0x0000_0018_0000_0002,
    0x0000_0001_0000_0028,
    0x0000_4000_0000_0000,
];

/// What comes back for them: version 5.0 is agreed on, the receive buffer has 64 parts of a page, the send buffer has sections of a page, and the adapter is initialized. That message has 52
/// bytes, which stand in the third page of the receive buffer.
const AGREED: [u64; 7] = [
    0x0007_0002_000b,
    40,
    0x0005_0000_0000_0002,
    0x0000_0001_0000_0001,
    0,
    0,
    0,
];

const RECEIVED: [u64; 7] = [
    0x0007_0002_000b,
    40,
    0x0000_0001_0000_0066,
    1,
    0x0000_0040_0000_1000,
    0x0004_0000,
    0,
];

const SENT: [u64; 7] = [0x0007_0002_000b, 40, 0x0000_0001_0000_0069, 0x1000, 0, 0, 0];

const INITIALIZED: [u64; 9] = [
    0x0001_0009_0004_0007,
    3,
    0x0000_0001_0000_cafe,
    0x0000_2000_0000_0034,
    0x0000_0001_0000_006b,
    0xffff_ffff,
    0,
    0,
    0,
];

const INITIALIZED_BYTES: [u64; 7] = [0x0000_0034_8000_0002, 40, 1, 1, 0x0000_0800_0000_0001, 0, 0];

/// A completion of this status.
fn ended(id: u64, status: u32) -> [u64; 7] {
    [
        0x0007_0002_000b,
        id,
        0x6c + u64::from(status) * 0x1_0000_0000,
        0,
        0,
        0,
        0,
    ]
}

/// The k-th packet of the start-up and its page words, the message that comes back for it and its page words, and the answer; empty where there is none.
fn starts(
    rt: &impl Abort,
    protocol: &DeviceProtocol,
    k: u32,
    want: &[u64],
    put: &[u64],
    message: &[u64],
    came: &[u64],
    answer: &[u64],
) {
    check(rt, protocol.starts() == 5 && k < protocol.count());
    check(rt, protocol.has_answer(k) == !answer.is_empty());
    let mut words = [0; 384];
    let mut page = [0; 512];
    let len = protocol.encode(k, 40, &mut words, &mut page);
    check(rt, len.words == put.len() && len.lent == put.len());
    let packet = &words[..len.packet];
    let put_there = &page[..len.words];
    check(rt, packet == want && put_there == put);
    check(rt, protocol.is_waiting(packet) == !answer.is_empty());
    check(rt, protocol.head(packet, put_there).is_none());
    check(
        rt,
        protocol.has_fixed_message(packet, put_there) == !message.is_empty(),
    );
    let mut out = [0; 384];
    let mut back = [0; 512];
    let len = protocol.write_fixed_message(packet, put_there, 3, &mut out, &mut back);
    check(rt, &out[..len.packet] == message);
    check(rt, &back[..len.words] == came && len.lent == came.len());
    let len = protocol.write_fixed(packet, put_there, &mut out);
    check(rt, &out[..len] == answer);
}

#[test]
fn networks_start_up(rt: HostRuntime) {
    let protocol = net_protocol(&rt, rt.alloc(), None);
    starts(&rt, &protocol, 0, &INIT, &[], &[], &[], &AGREED);
    starts(&rt, &protocol, 1, &NDIS, &[], &[], &[], &[]);
    starts(&rt, &protocol, 2, &RECEIVE, &[], &[], &[], &RECEIVED);
    starts(&rt, &protocol, 3, &SEND, &[], &[], &[], &SENT);
    starts(
        &rt,
        &protocol,
        4,
        &INITIALIZE,
        &INITIALIZE_BYTES,
        &INITIALIZED,
        &INITIALIZED_BYTES,
        &ended(40, 1),
    );
}

/// A query of the greatest frame, in section 4, and its 28 bytes.
const QUERY: [u64; 7] = [
    0x0001_0007_0002_0006,
    5,
    0x0000_0001_0000_006b,
    0x0000_001c_0000_0004,
    0,
    0,
    0,
];

const QUERY_BYTES: [u64; 4] = [0x0000_001c_0000_0004, 0x0001_0106_0000_0005, 0, 0];

/// A frame of 14 bytes, in section 4: 58 bytes.
const FRAME: [u64; 7] = [
    0x0001_0007_0002_0006,
    5,
    0x0000_0000_0000_006b,
    0x0000_003a_0000_0004,
    0,
    0,
    0,
];

/// What is asked under the id 5, what the adapter's message under the id 3 and the completion are, and what the guest reads in them.
fn net_round(
    rt: &impl Abort,
    alloc: Global,
    station: &mut Station,
    protocol: &DeviceProtocol,
    want: &[u64],
) -> Option<Reply>
    requires kind { protocol.now.kind ≡ NetKind }
{
    check(rt, (protocol.count(), protocol.starts()) == (6, 5));
    let mut words = [0; 384];
    let mut page = [0; 512];
    let len = protocol.encode(5, 5, &mut words, &mut page);
    let packet = &words[..len.packet];
    let put = &page[..len.words];
    check(rt, packet == want && len.lent == len.words);
    let Some(head) = protocol.head(packet, put) else {
        panic!(rt; "nothing is asked")
    };
    let asked = protocol.read(packet, put, &head);
    let Ask::Net(message) = asked else {
        panic!(rt; "no adapter is asked")
    };
    let answered = station.apply(&Ok(message));
    let reply = Reply::Net {
        status: answered.status,
        back: answered.back,
    };
    let mut before = [0; 384];
    let mut came = [0; 512];
    let len = protocol.write_message(packet, put, &reply, 3, &mut before, &mut came);
    check(rt, len.packet == 9 && len.lent == len.words);
    acknowledged(rt, protocol, &before[..len.packet], 1);
    let mut out = [0; 384];
    let back = protocol.write_answer(packet, put, &head, &reply, &mut out, &mut [0; 512]);
    check(rt, back.words == 0 && back.lent == 0);
    check(rt, &out[..back.packet] == ended(5, 1).as_slice());
    said_behind(
        rt,
        alloc,
        protocol,
        5,
        &before[..len.packet],
        &came[..len.words],
        &out[..back.packet],
        &[],
    )
}

/// A message is acknowledged under its id, with this status.
fn acknowledged(rt: &impl Abort, protocol: &DeviceProtocol, message: &[u64], status: u32)
    requires { IsPacket message.now }
{
    check(
        rt,
        protocol.is_message(message) && !protocol.is_answer(message),
    );
    let mut out = [0; 384];
    let len = protocol.write_ack(message, &mut out);
    check(rt, &out[..len] == ended(3, status).as_slice());
}

#[test]
fn networks_are_asked(rt: HostRuntime) {
    let query = Rndis::Query {
        request_id: 0,
        oid: 0x1_0106,
        body: Small::empty(),
    };
    let protocol = net_protocol(&rt, rt.alloc(), Some(query));
    let mut station = Station::make([2, 0, 0, 0, 0, 1], [2, 0, 0, 0, 0, 0xfe]);
    match net_round(&rt, rt.alloc(), &mut station, &protocol, &QUERY) {
        Some(
            Reply::Net {
                status: 1,
                back: Some(
                    Rndis::QueryComplete {
                        request_id: 5,
                        status: 0,
                        body,
                    },
                ),
            },
        ) => check(&rt, body.bytes() == [0xdc, 5, 0, 0].as_slice()),
        _ => panic!(rt; "no reply"),
    }
}

/// A message that came without its page, or with another's bytes, isn't served: it is completed with status 2, and nothing comes back besides.
#[test]
fn networks_serve_no_message_without_its_page(rt: HostRuntime) {
    let protocol = net_protocol(&rt, rt.alloc(), None);
    unserved(&rt, &protocol, &QUERY, &[]);
    unserved(&rt, &protocol, &QUERY, &QUERY_BYTES[..2]);
    unserved(&rt, &protocol, &FRAME, &[0, 0, 0, 0, 0, 0, 0, 0]);
    let Some(_) = protocol.head(&QUERY, &QUERY_BYTES) else {
        panic!(rt; "nothing is asked")
    };
}

fn unserved(rt: &impl Abort, protocol: &DeviceProtocol, packet: &[u64], words: &[u64])
    requires packet { IsPacket packet.now }
    requires words { length words.now ≤ 512 }
{
    check(rt, protocol.is_waiting(packet));
    check(rt, protocol.head(packet, words).is_none());
    check(rt, !protocol.has_fixed_message(packet, words));
    let mut out = [0; 384];
    let len = protocol.write_fixed(packet, words, &mut out);
    check(rt, &out[..len] == ended(5, 2).as_slice());
}

/// A packet that names no page of the receive buffer is completed with status 2: it begins within a page, or names none.
#[test]
fn networks_take_no_message_without_its_page(rt: HostRuntime) {
    let protocol = net_protocol(&rt, rt.alloc(), None);
    let mut message = INITIALIZED;
    acknowledged(&rt, &protocol, &message, 1);
    message[3] = 0x0000_2008_0000_0034;
    acknowledged(&rt, &protocol, &message, 2);
    message[3] = 0x0004_0000_0000_0034;
    acknowledged(&rt, &protocol, &message, 2);
}
