//! NVSP messages against those that Linux's structs make, and the station against its tables.
ghost use Rattle.std.specs.Prelude.{◌≡◌, ◌≤◌, length};

use crate::check::check;
use crate::hex::unhex;
use hist_lock::Machine;
use net_dev::{
    NetReply, Nvsp, NvspFault, Station, decode_nvsp, encode_and_decode_nvsp, encode_nvsp,
};
use rndis_msg::{Rndis, RndisFault, Small};
use std::process::Abort;
use std::test::Fail;

// The bytes that hexadecimal digits spell, with zeros after them.
fn spelled(rt: &impl Abort, digits: &str) -> [u8; 64] {
    let mut bytes = [0; 64];
    unhex(rt, digits, &mut bytes);
    bytes
}

// The first bytes of a buffer.
fn front(bytes: &[u8; 64], len: usize) -> &[u8]
    requires { len ≤ 64 }
    ensures { length result.now ≡ len }
{
    &bytes[..len]
}

// The digits, with zeros behind them up to 40 bytes, are the message, read and written.
fn is_both_ways(rt: &impl Abort, digits: &str, want: Nvsp) {
    let mut bytes = spelled(rt, digits);
    check(rt, decode_nvsp(front(&bytes, 40)) == Ok(want));
    // What follows, a Remote NDIS message, isn't looked at.
    bytes[41] = 7;
    check(rt, decode_nvsp(&bytes) == Ok(want));
    let mut out = [0xee; 40];
    encode_nvsp(&want, &mut out);
    check(rt, &out[..] == front(&bytes, 40));
    check(rt, encode_and_decode_nvsp(&want) == Ok(want));
}

#[test]
fn messages_are_those_of_linux(rt: HostRuntime) {
    is_both_ways(&rt, "010000000200000002", Nvsp::Init { min: 2, max: 2 });
    is_both_ways(
        &rt,
        "0100000002000300020003",
        Nvsp::Init {
            min: 196610,
            max: 196610,
        },
    );
    is_both_ways(
        &rt,
        "0100000000000400000004",
        Nvsp::Init {
            min: 262144,
            max: 262144,
        },
    );
    is_both_ways(
        &rt,
        "0100000000000500000005",
        Nvsp::Init {
            min: 327680,
            max: 327680,
        },
    );
    is_both_ways(
        &rt,
        "02000000000000000000000002",
        Nvsp::InitComplete {
            version: 0,
            mdl_chain_length: 0,
            status: 2,
        },
    );
    is_both_ways(
        &rt,
        "65000000111e0e00feca",
        Nvsp::ReceiveBuffer {
            gpadl: 925201,
            id: 51966,
        },
    );
    is_both_ways(
        &rt,
        "68000000121e0e",
        Nvsp::SendBuffer {
            gpadl: 925202,
            id: 0,
        },
    );
    is_both_ways(
        &rt,
        "6b00000000000000ffffffff",
        Nvsp::RndisPacket {
            channel_type: 0,
            section_index: 4294967295,
            section_size: 0,
        },
    );
    is_both_ways(
        &rt,
        "6b00000001000000ffffffff",
        Nvsp::RndisPacket {
            channel_type: 1,
            section_index: 4294967295,
            section_size: 0,
        },
    );
    is_both_ways(&rt, "6c00000001", Nvsp::RndisPacketComplete { status: 1 });
    is_both_ways(
        &rt,
        "64000000060000001e",
        Nvsp::NdisVersion {
            major: 6,
            minor: 30,
        },
    );
    is_both_ways(
        &rt,
        "660000000100000002000000030000001406000005000000641e",
        Nvsp::ReceiveBufferComplete {
            status: 1,
            count: 2,
            offset: 3,
            sub_alloc_size: 1556,
            num_sub_allocs: 5,
            end_offset: 7780,
        },
    );
    is_both_ways(
        &rt,
        "69000000010000000018",
        Nvsp::SendBufferComplete {
            status: 1,
            section_size: 6144,
        },
    );
}

// Bytes that begin with this number are refused so.
fn is_unknown(rt: &impl Abort, kind: u32) {
    let mut bytes = [0; 40];
    bytes[..4].copy_from_slice(&kind.to_le_bytes());
    check(rt, decode_nvsp(&bytes) == Err(NvspFault::Unknown { kind }));
}

#[test]
fn other_bytes_are_refused(rt: HostRuntime) {
    is_unknown(&rt, 0);
    is_unknown(&rt, 99);
    is_unknown(&rt, 106);
    is_unknown(&rt, 125);
    is_unknown(&rt, 133);
    is_unknown(&rt, 4_294_967_295);
    let short = NvspFault::Short { have: 1, need: 40 };
    check(&rt, decode_nvsp(&[1]) == Err(short));
    let short = NvspFault::Short { have: 39, need: 40 };
    check(&rt, decode_nvsp(&[0; 39]) == Err(short));
}

#[test]
fn faults_have_texts(rt: HostRuntime) -> Result<(), Fail> {
    let text = NvspFault::Unknown { kind: 106 }.to_string(rt.alloc())?;
    check(&rt, text.as_str() == "unknown 106");
    let text = NvspFault::Short { have: 39, need: 40 }.to_string(rt.alloc())?;
    check(&rt, text.as_str() == "short 39 need 40");
    Ok(())
}

const MAC: [u8; 6] = [2, 0, 0, 0, 0, 1];

const STATION: [u8; 6] = [2, 0, 0, 0, 0, 0xfe];

fn query(oid: u32) -> Result<Rndis, RndisFault> {
    Ok(Rndis::Query {
        request_id: 7,
        oid,
        body: Small::of(&[9]),
    })
}

fn set(oid: u32, value: &[u8]) -> Result<Rndis, RndisFault>
    requires { length value.now ≤ 1514 }
{
    Ok(Rndis::Set {
        request_id: 8,
        oid,
        body: Small::of(value),
    })
}

// The answer is a query complete of request 7 with this status and these bytes.
fn gives(rt: &impl Abort, reply: &NetReply, want: u32, value: &[u8]) {
    check(rt, reply.status == 1);
    match &reply.back {
        Some(
            Rndis::QueryComplete {
                request_id: 7,
                status,
                body,
            },
        ) => {
            check(rt, *status == want);
            check(rt, body.bytes() == value);
        }
        _ => panic!(rt; "another answer"),
    }
}

// The device answers a query for this object by these bytes.
fn queried(rt: &impl Abort, device: &mut Station, oid: u32, value: &[u8]) {
    gives(rt, &device.apply(&query(oid)), 0, value);
}

#[test]
fn queries_give_the_table(rt: HostRuntime) {
    let mut device = Station::make(MAC, STATION);
    let d = &mut device;
    let list = [
        1, 1, 1, 0, 2, 1, 1, 0, 3, 1, 1, 0, 4, 1, 1, 0, 6, 1, 1, 0, 7, 1, 1, 0, 0x0e, 1, 1, 0,
        0x14, 1, 1, 0, 1, 1, 1, 1, 2, 1, 1, 1,
    ];
    queried(&rt, d, 0x0001_0101, &list);
    queried(&rt, d, 0x0001_0102, &[0; 4]);
    queried(&rt, d, 0x0001_0103, &[0; 4]);
    queried(&rt, d, 0x0001_0104, &[0; 4]);
    queried(&rt, d, 0x0001_0106, &[0xdc, 5, 0, 0]);
    queried(&rt, d, 0x0001_0107, &[0x80, 0x96, 0x98, 0]);
    queried(&rt, d, 0x0001_010e, &[0; 4]);
    queried(&rt, d, 0x0001_0114, &[0; 4]);
    queried(&rt, d, 0x0101_0101, &MAC);
    queried(&rt, d, 0x0101_0102, &MAC);
    gives(&rt, &d.apply(&query(0x0001_ffff)), 0xc000_00bb, &[]);
}

// The device answers a set by this status, and its packet filter is this one then.
fn is_set(
    rt: &impl Abort,
    device: &mut Station,
    request: &Result<Rndis, RndisFault>,
    want: u32,
    filter: u8,
) {
    match device.apply(request).back {
        Some(Rndis::SetComplete { request_id, status }) => {
            check(rt, (request_id, status) == (8, want));
        }
        _ => panic!(rt; "another answer"),
    }
    queried(rt, device, 0x0001_010e, &[filter, 0, 0, 0]);
}

// The packet filter is set by 4 bytes, and a reset puts 0 in its place.
#[test]
fn sets_change_the_filter(rt: HostRuntime) {
    let mut device = Station::make(MAC, STATION);
    let d = &mut device;
    is_set(&rt, d, &set(0x0001_010e, &[0x2d, 0, 0, 0]), 0, 0x2d);
    is_set(&rt, d, &set(0x0001_010e, &[1, 2, 3]), 0xc001_0015, 0x2d);
    is_set(&rt, d, &set(0x0101_0103, &[1, 2, 3, 4]), 0xc000_00bb, 0x2d);
    is_set(&rt, d, &set(0x0001_010e, &[3, 0, 0, 0]), 0, 3);
    match d.apply(&Ok(Rndis::Reset)).back {
        Some(
            Rndis::ResetComplete {
                status,
                addressing_reset,
            },
        ) => {
            check(&rt, (status, addressing_reset) == (0, 0));
        }
        _ => panic!(&rt; "another answer"),
    }
    queried(&rt, d, 0x0001_010e, &[0; 4]);
}

// A copy of what any machine answers.
fn served<M: Machine>(machine: &mut M, request: &M::Request) -> M::Reply {
    M::copy(&machine.apply(request))
}

// A frame is answered by this one, or by none.
fn echoes(rt: &impl Abort, device: &mut Station, frame: &[u8], want: Option<&[u8]>)
    requires { length frame.now ≤ 1514 }
{
    let request = Ok(Rndis::Packet {
        body: Small::of(frame),
    });
    let reply = served(device, &request);
    check(rt, reply.status == 1);
    match (reply.back, want) {
        (Some(Rndis::Packet { body }), Some(bytes)) => check(rt, body.bytes() == bytes),
        (None, None) => {}
        _ => panic!(rt; "{frame:?}"),
    }
}

#[test]
fn frames_come_back(rt: HostRuntime) {
    let mut device = Station::make(MAC, STATION);
    let d = &mut device;
    let all = [
        0xff, 0xff, 0xff, 0xff, 0xff, 0xff, 2, 0, 0, 0, 0, 1, 8, 0, 5,
    ];
    let one = [2, 0, 0, 0, 0, 0xfe, 2, 0, 0, 0, 0, 1, 8, 0, 5];
    let other = [2, 0, 0, 0, 0, 0xaa, 2, 0, 0, 0, 0, 1, 8, 0, 5];
    let back = [2, 0, 0, 0, 0, 1, 2, 0, 0, 0, 0, 0xfe, 8, 0, 5];
    echoes(&rt, d, &all, Some(&back));
    echoes(&rt, d, &one, Some(&back));
    echoes(&rt, d, &one[..14], Some(&back[..14]));
    echoes(&rt, d, &one[..13], None);
    echoes(&rt, d, &other, None);
}

#[test]
fn an_initialize_is_completed(rt: HostRuntime) {
    let mut device = Station::make(MAC, STATION);
    let reply = device.apply(&Ok(Rndis::Initialize {
        request_id: 3,
        major: 1,
        minor: 0,
        max_transfer: 16_384,
    }));
    let mut out = [0; 1600];
    match reply.back {
        Some(complete) => {
            let len = rndis_msg::encode(&complete, &mut out);
            let want = [
                2, 0, 0, 0x80, 52, 0, 0, 0, 3, 0, 0, 0, 0, 0, 0, 0, 1, 0, 0, 0, 0, 0, 0, 0, 1, 0,
                0, 0, 0, 0, 0, 0, 1, 0, 0, 0, 0, 8, 0, 0, 0, 0, 0, 0, 0, 0, 0, 0, 0, 0, 0, 0,
            ];
            check(&rt, out[..len] == want[..]);
        }
        None => panic!(&rt; "no answer"),
    }
}

// The device answers by this status, and by no message.
fn has_no_answer(
    rt: &impl Abort,
    device: &mut Station,
    request: &Result<Rndis, RndisFault>,
    want: u32,
) {
    let reply = device.apply(request);
    check(rt, reply.status == want && reply.back.is_none());
}

#[test]
fn other_messages_have_their_rows(rt: HostRuntime) {
    let mut device = Station::make(MAC, STATION);
    let d = &mut device;
    match d.apply(&Ok(Rndis::Keepalive { request_id: 4 })).back {
        Some(Rndis::KeepaliveComplete { request_id, status }) => {
            check(&rt, (request_id, status) == (4, 0));
        }
        _ => panic!(&rt; "another answer"),
    }
    has_no_answer(&rt, d, &Ok(Rndis::Halt { request_id: 5 }), 1);
    has_no_answer(&rt, d, &Err(RndisFault::Unknown { kind: 9 }), 2);
    let complete = Rndis::KeepaliveComplete {
        request_id: 4,
        status: 0,
    };
    has_no_answer(&rt, d, &Ok(complete), 2);
}
