//! The lines of a network: read, refused and reported.
ghost use Rattle.std.specs.Prelude.{◌≤◌, length};

use crate::bus_script_tests::{
    check_accepted, check_forms, check_line, check_offer, check_refused, repeated, reported,
    script_of,
};
use crate::check::check;
use bus_script::{Ask, DeviceSpec, LineResult, Reply, Script, What, Why6, parse};
use rndis_msg::{Rndis, Small};
use std::process::Abort;

fn asks(message: Rndis) -> What {
    What::Ask {
        device: 0,
        ask: Ask::Net(message),
    }
}

// What each line of a network says.
#[test]
fn reads_net_lines(rt: HostRuntime) {
    let script = script_of(
        &rt,
        b"offer net net 02A0b000000f 0200000000fE\nquery net 0x0001010E\nset net 0xfffffffF 01Ff\nkeep net\nreset net\nframe net 0102030405060708090a0b0c0D0E\n",
    );
    check(&rt, script.lines().len() == 6);
    let net = DeviceSpec::Net {
        mac: [2, 0xa0, 0xb0, 0, 0, 15],
        station: [2, 0, 0, 0, 0, 0xfe],
    };
    check_offer(&rt, &script, 0, b"net", net);
    let query = Rndis::Query {
        request_id: 0,
        oid: 0x1_010e,
        body: Small::empty(),
    };
    check_line(&rt, &script, 1, 2, &asks(query));
    let set = Rndis::Set {
        request_id: 0,
        oid: u32::MAX,
        body: Small::of(&[1, 0xff]),
    };
    check_line(&rt, &script, 2, 3, &asks(set));
    let keep = Rndis::Keepalive { request_id: 0 };
    check_line(&rt, &script, 3, 4, &asks(keep));
    check_line(&rt, &script, 4, 5, &asks(Rndis::Reset));
    let body = Small::of(&[1, 2, 3, 4, 5, 6, 7, 8, 9, 10, 11, 12, 13, 14]);
    check_line(&rt, &script, 5, 6, &asks(Rndis::Packet { body }));
}

const ACCEPTED: [(&[u8], usize); 4] = [
    (b"offer net n 020000000001 0200000000fe\n", 1),
    (
        b"offer net n 020000000001 0200000000fe\nring n 16\nwindow n 64\nrescind n after 1 held\nclose n\n",
        5,
    ),
    (
        b"offer net set 020000000001 0200000000fe\nset set 0x00000000 00\nphase\nkeep set\n",
        4,
    ),
    (
        b"offer net a 020000000001 0200000000fe\noffer disk d 64 3\noffer net b 020000000001 020000000001\n",
        3,
    ),
];

#[test]
fn accepts_nets(rt: HostRuntime) {
    check_accepted(&rt, &ACCEPTED);
}

const NO_FORM: [(&[u8], u32); 18] = [
    (b"offer net n\n", 1),
    (b"offer net n 020000000001\n", 1),
    (b"offer net n 02000000001 0200000000fe\n", 1),
    (b"offer net n 0200000000001 0200000000fe\n", 1),
    (b"offer net n 020000000001 0200000000fg\n", 1),
    (b"offer net n 020000000001 0200000000fe 1\n", 1),
    (b"query n 00010106\n", 1),
    (b"query n 0x0010106\n", 1),
    (b"query n 0x000101060\n", 1),
    (b"query n 0X00010106\n", 1),
    (b"query n 0x00010106 00\n", 1),
    (b"set n 0x0001010e\n", 1),
    (b"set n 0x0001010e 0\n", 1),
    (b"set n 0x0001010e 000\n", 1),
    (b"keep n 1\n", 1),
    (b"reset\n", 1),
    (b"frame n\n", 1),
    (b"frame n 0x0001\n", 1),
];

#[test]
fn refuses_net_forms(rt: HostRuntime) {
    check_forms(&rt, &NO_FORM);
}

const REFUSED: [(&[u8], u32, Why6); 12] = [
    (b"query n 0x00010106\n", 1, Why6::UnknownName),
    (b"offer hb n\nkeep n\n", 2, Why6::UnknownName),
    (b"offer disk n 64 0\nreset n\n", 2, Why6::UnknownName),
    (
        b"offer net n 020000000001 0200000000fe\nready n\n",
        2,
        Why6::UnknownName,
    ),
    (
        b"offer net n 020000000001 0200000000fe\nbeat n 1\n",
        2,
        Why6::UnknownName,
    ),
    (
        b"offer net n 020000000001 0200000000fe\nbad n 0\n",
        2,
        Why6::UnknownName,
    ),
    (
        b"offer hb a\noffer net a 020000000001 0200000000fe\n",
        2,
        Why6::Repeat,
    ),
    (
        b"offer net n 020000000001 0200000000fe\nkeep n\noffer net m 020000000001 0200000000fe\n",
        3,
        Why6::Order,
    ),
    (
        b"offer net n 020000000001 0200000000fe\nrescind n after 1\nphase\nclose n\n",
        4,
        Why6::Order,
    ),
    (
        b"offer net n 020000000001 0200000000fe\nrescind n after 0 held\n",
        2,
        Why6::Range,
    ),
    (
        b"offer net n 020000000001 0200000000fe\nframe n 0102030405060708090a0b0c0d\n",
        2,
        Why6::Range,
    ),
    (
        b"offer disk a 64 3\noffer disk b 64 3\noffer disk c 64 3\noffer disk e 64 3\noffer net n 020000000001 0200000000fe\n",
        5,
        Why6::Limit,
    ),
];

#[test]
fn refuses_nets(rt: HostRuntime) {
    check_refused(&rt, &REFUSED);
}

const OFFER: &[u8] = b"offer net n 020000000001 0200000000fe\n";

// Whether a script of the offer and this line, with so many bytes more in front of its end, is read.
fn reads(rt: &(impl Abort + AllocGlobal), line: &[u8], bytes: u32) -> bool {
    let head = repeated(rt, OFFER, line, 1, b"");
    let script = repeated(rt, &head, b"5a", bytes, b"\n");
    parse(rt.alloc(), &script).is_ok()
}

#[test]
fn limits_of_bytes(rt: HostRuntime) {
    check(&rt, reads(&rt, b"set n 0x0001010e ", 64));
    check(&rt, !reads(&rt, b"set n 0x0001010e ", 65));
    check(&rt, reads(&rt, b"frame n ", 1_514));
    check(&rt, !reads(&rt, b"frame n ", 1_515));
}

fn came(serial: u32, back: Option<Rndis>) -> LineResult {
    LineResult::Done {
        serial,
        reply: Reply::Net { status: 1, back },
    }
}

fn value(status: u32, bytes: &[u8]) -> Option<Rndis>
    requires { length bytes.now ≤ 1514 }
{
    Some(Rndis::QueryComplete {
        request_id: 3,
        status,
        body: Small::of(bytes),
    })
}

#[test]
fn reports_nets(rt: HostRuntime) {
    let back = Small::of(&[2, 0, 0, 0, 0, 1, 2, 0, 0, 0, 0, 0xfe, 8, 0]);
    reported(
        &rt,
        b"offer net n0 020000000001 0200000000fe\nquery n0 0x00010106\nquery n0 0x0001ffff\nframe n0 ffffffffffff0200000000010800\nframe n0 0200000000aa0200000000010800\n",
        &[
            came(0, value(0, &[0xdc, 5, 0, 0])),
            came(1, value(0xc000_00bb, &[])),
            came(2, Some(Rndis::Packet { body: back })),
            came(3, None),
        ],
        b"2 done @0 status 0x00000000 1xdc+1x05+2x00\n3 done @1 status 0xc00000bb\n4 done @2 sent back 14 1x02+4x00+1x01+1x02+4x00+1xfe+1x08+1x00\n5 done @3 sent\nend requests 4 done 4 rescinded 0\n",
    );
}

#[test]
fn reports_other_nets(rt: HostRuntime) {
    let set = Rndis::SetComplete {
        request_id: 3,
        status: 0xc001_0015,
    };
    let kept = Rndis::KeepaliveComplete {
        request_id: 4,
        status: 0,
    };
    let reset = Rndis::ResetComplete {
        status: 0,
        addressing_reset: 1,
    };
    reported(
        &rt,
        b"offer net n 020000000001 0200000000fe\nset n 0x0001010e 00\nkeep n\nreset n\nkeep n\nrescind n after 4 held\n",
        &[
            came(0, Some(set)),
            came(1, Some(kept)),
            came(2, Some(reset)),
            LineResult::RescindedServed { serial: 3 },
        ],
        b"2 done @0 status 0xc0010015\n3 done @1 status 0x00000000\n4 done @2 status 0x00000000\n5 rescinded @3\nend requests 4 done 3 rescinded 1\n",
    );
}
