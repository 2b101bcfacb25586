//! The lines of a key-value service: read, refused and reported.
use crate::bus_script_tests::{
    check_accepted, check_forms, check_offer, check_refused, repeated, reported, script_of,
};
use crate::check::check;
use bus_script::{Ask, DeviceSpec, LineResult, Reply, Script, What, Why6, parse};
use kvp_ic::{Kvp, KvpReply};
use kvp_pool::Units;
use std::process::Abort;

// What a line asks of the first device.
fn asked_in(script: &Script, i: usize) -> Option<&Kvp> {
    match script.lines().get(i) {
        Some(line) => match &line.what {
            What::Ask {
                device: 0,
                ask: Ask::Kvp(request),
            } => Some(request),
            _ => None,
        },
        None => None,
    }
}

// Whether a text has these characters.
fn is(units: &[u16], chars: &[u8]) -> bool {
    if units.len() != chars.len() {
        return false;
    }
    for i in 0..units.len() {
        if units[i] != u16::from(chars[i]) {
            return false;
        }
    }
    true
}

// What each line says.
#[test]
fn reads_pair_lines(rt: HostRuntime) {
    let script = script_of(
        &rt,
        b"offer kvp kvp\nkvp kvp set 1 color blue\n  kvp  kvp  get  0  #a~\nkvp kvp del 4 k\nkvp kvp enum 3 4294967295\n",
    );
    check(&rt, script.lines().len() == 5);
    check_offer(&rt, &script, 0, b"kvp", DeviceSpec::Kvp);
    match asked_in(&script, 1) {
        Some(Kvp::Set { pool, key, value }) => {
            check(&rt, *pool == 1);
            check(&rt, is(key.units(), b"color"));
            check(&rt, is(value.units(), b"blue"));
        }
        _ => check(&rt, false),
    }
    match asked_in(&script, 2) {
        Some(Kvp::Get { pool, key }) => {
            check(&rt, *pool == 0);
            check(&rt, is(key.units(), b"#a~"));
        }
        _ => check(&rt, false),
    }
    match asked_in(&script, 3) {
        Some(Kvp::Delete { pool, key }) => {
            check(&rt, *pool == 4);
            check(&rt, is(key.units(), b"k"));
        }
        _ => check(&rt, false),
    }
    match asked_in(&script, 4) {
        Some(Kvp::Enum { pool, index }) => check(&rt, (*pool, *index) == (3, u32::MAX)),
        _ => check(&rt, false),
    }
}

const ACCEPTED: [(&[u8], usize); 3] = [
    (b"offer kvp k\nring k 16\nwindow k 64\nclose k\n", 4),
    (
        b"offer kvp set\nkvp set set 0 set set\nphase\nkvp set get 0 set\n",
        4,
    ),
    (
        b"offer kvp a\noffer hb b\noffer kvp c\nkvp c enum 0 0\nmodify a 63\n",
        5,
    ),
];

#[test]
fn accepts_pairs(rt: HostRuntime) {
    check_accepted(&rt, &ACCEPTED);
}

const NO_FORM: [(&[u8], u32); 18] = [
    (b"offer kvp\n", 1),
    (b"offer kvp k 1\n", 1),
    (b"offer kvp K\n", 1),
    (b"kvp\n", 1),
    (b"kvp k\n", 1),
    (b"kvp k set\n", 1),
    (b"kvp k set 1 a\n", 1),
    (b"kvp k set 1 a b c\n", 1),
    (b"kvp k set 01 a b\n", 1),
    (b"kvp k set x a b\n", 1),
    (b"kvp k get 1\n", 1),
    (b"kvp k get 1 a b\n", 1),
    (b"kvp k del 1\n", 1),
    (b"kvp k enum 1\n", 1),
    (b"kvp k enum 1 a\n", 1),
    (b"kvp k enum 1 0 0\n", 1),
    (b"kvp k put 1 a b\n", 1),
    (b"kvp k Get 1 a\n", 1),
];

#[test]
fn refuses_pair_forms(rt: HostRuntime) {
    check_forms(&rt, &NO_FORM);
}

const REFUSED: [(&[u8], u32, Why6); 16] = [
    (b"kvp k get 1 a\n", 1, Why6::UnknownName),
    (b"offer hb k\nkvp k get 1 a\n", 2, Why6::UnknownName),
    (b"offer kvp k\nbeat k 1\n", 2, Why6::UnknownName),
    (b"offer kvp k\ndown k 1\n", 2, Why6::UnknownName),
    (b"offer kvp k\nready k\n", 2, Why6::UnknownName),
    (b"offer kvp k\nset k 0x0001010e 00\n", 2, Why6::UnknownName),
    (b"offer kvp k\nbad k 0\n", 2, Why6::UnknownName),
    (b"offer kvp k\nrescind k after 1\n", 2, Why6::UnknownName),
    (b"offer kvp k\noffer kvp k\n", 2, Why6::Repeat),
    (
        b"offer kvp k\nkvp k enum 0 0\noffer kvp l\n",
        3,
        Why6::Order,
    ),
    (b"offer kvp k\nkvp k set 5 a b\n", 2, Why6::Range),
    (b"offer kvp k\nkvp k get 5 a\n", 2, Why6::Range),
    (
        b"offer kvp k\nkvp k del 18446744073709551616 a\n",
        2,
        Why6::Range,
    ),
    (b"offer kvp k\nkvp k enum 5 0\n", 2, Why6::Range),
    (b"offer kvp k\nkvp k enum 0 4294967296\n", 2, Why6::Range),
    (
        b"offer disk a 64 3\noffer disk b 64 3\noffer disk c 64 3\noffer disk e 64 3\noffer kvp k\n",
        5,
        Why6::Limit,
    ),
];

#[test]
fn refuses_pairs(rt: HostRuntime) {
    check_refused(&rt, &REFUSED);
}

// Whether a script of an offer and this line, with so many characters more at its end, is read.
fn reads(rt: &(impl Abort + AllocGlobal), line: &[u8], chars: u32) -> bool {
    let head = repeated(rt, b"offer kvp k\n", line, 1, b"");
    let script = repeated(rt, &head, b"~", chars, b"\n");
    parse(rt.alloc(), &script).is_ok()
}

#[test]
fn limits_of_texts(rt: HostRuntime) {
    check(&rt, reads(&rt, b"kvp k get 0 ", 255));
    check(&rt, !reads(&rt, b"kvp k get 0 ", 256));
    check(&rt, reads(&rt, b"kvp k del 0 ", 255));
    check(&rt, !reads(&rt, b"kvp k del 0 ", 256));
    check(&rt, reads(&rt, b"kvp k set 0 k ", 1_023));
    check(&rt, !reads(&rt, b"kvp k set 0 k ", 1_024));
}

// A text of these characters.
fn text<const MIN: usize, const MAX: usize>(units: &[u16]) -> Option<Units<MIN, MAX>> {
    Units::try_of(units)
}

fn done(serial: u32, status: u32) -> LineResult {
    LineResult::Done {
        serial,
        reply: Reply::Kvp(KvpReply::of_status(status)),
    }
}

#[test]
fn reports_pairs(rt: HostRuntime) {
    let value = LineResult::Done {
        serial: 1,
        reply: Reply::Kvp(KvpReply {
            status: 0,
            key: None,
            value: text(&[98, 108, 117, 101]),
        }),
    };
    // A unit that no word of a script has is written as a question mark.
    let pair = LineResult::Done {
        serial: 2,
        reply: Reply::Kvp(KvpReply {
            status: 0,
            key: text(&[99, 0x20ac, 32, 126, 127]),
            value: text(&[]),
        }),
    };
    reported(
        &rt,
        b"offer kvp k\nkvp k set 1 color blue\nkvp k get 1 color\nkvp k enum 1 0\nkvp k enum 1 1\nkvp k del 1 color\n",
        &[
            done(0, 0),
            value,
            pair,
            done(3, 0x8007_0103),
            LineResult::Closed,
        ],
        b"2 done @0 status 0x00000000\n3 done @1 status 0x00000000 value blue\n4 done @2 status 0x00000000 key c??~? value \n5 done @3 status 0x80070103\n6 closed\nend requests 5 done 4 rescinded 0\n",
    );
}
