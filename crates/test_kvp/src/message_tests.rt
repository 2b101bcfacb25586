//! Messages against those of Linux's struct hv_kvp_msg, a delete's apart, each fault in its order, and the answers.

use crate::check::check;
use crate::hex::unhex;
use crate::texts::{is, key, of, value};
use kvp_ic::laws::encode_and_decode;
use kvp_ic::{Kvp, KvpFault, KvpReply, answer, decode, encode, read_reply};
use std::process::Abort;
use std::test::Fail;

// The bytes from one place up to another.
fn part<'a>(rt: &impl Abort, bytes: &'a [u8], from: usize, to: usize) -> &'a [u8] {
    check(rt, from <= to);
    check(rt, to <= bytes.len());
    &bytes[from..to]
}

// These bytes stand there.
fn stand(rt: &impl Abort, bytes: &[u8], at: usize, want: &[u8]) {
    check(rt, at <= bytes.len());
    check(rt, want.len() <= bytes.len() - at);
    check(rt, &bytes[at..at + want.len()] == want);
}

// These digits, with zeros behind them up to so many bytes, are the message, written and read.
fn is_both_ways(rt: &impl Abort, digits: &str, len: usize, m: &Kvp) {
    let mut want = [0; 2608];
    unhex(rt, digits, &mut want);
    let mut out = [0; 2608];
    check(rt, encode(m, &mut out) == len);
    check(rt, out == want);
    check(rt, len <= 2608);
    match decode(&want[..len]) {
        Ok(read) => {
            let mut again = [0; 2608];
            check(rt, encode(&read, &mut again) == len);
            check(rt, again == want);
        }
        Err(_) => check(rt, false),
    }
}

#[test]
fn messages_are_those_of_linux(rt: HostRuntime) {
    is_both_ways(
        &rt,
        "00000000240a000003000000020003000000100a000000000003000000010000010000000c0000000000000063006f006c006f0072",
        2604,
        &Kvp::Get {
            pool: 1,
            key: key(&rt, "color"),
        },
    );
    is_both_ways(
        &rt,
        "00000000240a000003000000020003000000100a00000000000300000003000001000000240000000000000061002d006c006f006e006700650072002d006b00650079002d006e0061006d0065",
        2604,
        &Kvp::Get {
            pool: 3,
            key: key(&rt, "a-longer-key-name"),
        },
    );
    is_both_ways(
        &rt,
        "00000000240a000003000000020003000000100a0000000000030000010200000100000004000000020000006b",
        2604,
        &Kvp::Set {
            pool: 2,
            key: key(&rt, "k"),
            value: value(&rt, ""),
        },
    );
    is_both_ways(
        &rt,
        "00000000280a000003000000020003000000140a0000000000030000030100000000000001",
        2608,
        &Kvp::Enum { pool: 1, index: 0 },
    );
    is_both_ways(
        &rt,
        "00000000280a000003000000020003000000140a0000000000030000030300000600000001",
        2608,
        &Kvp::Enum { pool: 3, index: 6 },
    );
}

// A delete's record is this program's: that of a get.
#[test]
fn a_delete_has_the_record_of_a_get(rt: HostRuntime) {
    is_both_ways(
        &rt,
        "00000000240a000003000000020003000000100a000000000003000002010000010000000c0000000000000063006f006c006f0072",
        2604,
        &Kvp::Delete {
            pool: 1,
            key: key(&rt, "color"),
        },
    );
    is_both_ways(
        &rt,
        "00000000240a000003000000020003000000100a0000000000030000020200000100000004000000000000006b",
        2604,
        &Kvp::Delete {
            pool: 2,
            key: key(&rt, "k"),
        },
    );
    is_both_ways(
        &rt,
        "00000000240a000003000000020003000000100a00000000000300000203000001000000240000000000000061002d006c006f006e006700650072002d006b00650079002d006e0061006d0065",
        2604,
        &Kvp::Delete {
            pool: 3,
            key: key(&rt, "a-longer-key-name"),
        },
    );
}

// A set of a key and a value in pool 2.
fn set_message(rt: &impl Abort) -> [u8; 2608] {
    let mut bytes = [0; 2608];
    let m = Kvp::Set {
        pool: 2,
        key: key(rt, "ab"),
        value: value(rt, "xyz"),
    };
    check(rt, encode(&m, &mut bytes) == 2604);
    bytes
}

// The message with a byte changed is refused so.
fn is_refused(rt: &impl Abort, at: usize, byte: u8, fault: KvpFault) {
    let mut bytes = set_message(rt);
    check(rt, at < 2604);
    bytes[at] = byte;
    check(rt, is_fault(part(rt, &bytes, 0, 2604), fault));
}

fn is_fault(bytes: &[u8], fault: KvpFault) -> bool {
    match decode(bytes) {
        Ok(_) => false,
        Err(e) => e == fault,
    }
}

#[test]
fn a_short_message_is_refused(rt: HostRuntime) {
    check(
        &rt,
        is_fault(
            &[0; 2603],
            KvpFault::Short {
                have: 2603,
                need: 2604,
            },
        ),
    );
    check(&rt, is_fault(&[0; 2604], KvpFault::Size { value: 0 }));
    let bytes = set_message(&rt);
    check(&rt, decode(part(&rt, &bytes, 0, 2604)).is_ok());
    check(&rt, decode(&bytes).is_ok());
}

#[test]
fn an_operation_or_a_pool_is_refused(rt: HostRuntime) {
    is_refused(&rt, 28, 4, KvpFault::Operation { value: 4 });
    is_refused(
        &rt,
        28,
        3,
        KvpFault::Short {
            have: 2604,
            need: 2608,
        },
    );
    is_refused(&rt, 29, 5, KvpFault::Pool { value: 5 });
}

#[test]
fn a_size_is_refused(rt: HostRuntime) {
    is_refused(&rt, 36, 5, KvpFault::Size { value: 5 });
    is_refused(&rt, 36, 2, KvpFault::Size { value: 2 });
    is_refused(&rt, 37, 2, KvpFault::Size { value: 518 });
    is_refused(&rt, 39, 255, KvpFault::Size { value: 0xff00_0006 });
    is_refused(&rt, 40, 0, KvpFault::Size { value: 0 });
    is_refused(&rt, 41, 8, KvpFault::Size { value: 2056 });
}

#[test]
fn a_text_is_refused(rt: HostRuntime) {
    is_refused(&rt, 44, 0, KvpFault::Text { at: 0 });
    is_refused(&rt, 49, 1, KvpFault::Text { at: 4 });
    is_refused(&rt, 558, 0, KvpFault::Text { at: 514 });
    is_refused(&rt, 562, 1, KvpFault::Text { at: 518 });
}

// The key's size comes before the value's, both before texts, and the key's text before the value's.
#[test]
fn faults_have_an_order(rt: HostRuntime) {
    let mut bytes = set_message(&rt);
    bytes[562] = 1;
    bytes[44] = 0;
    check(&rt, is_fault(&bytes, KvpFault::Text { at: 0 }));
    bytes[40] = 1;
    check(&rt, is_fault(&bytes, KvpFault::Size { value: 1 }));
    bytes[36] = 3;
    check(&rt, is_fault(&bytes, KvpFault::Size { value: 3 }));
    bytes[29] = 9;
    check(&rt, is_fault(&bytes, KvpFault::Pool { value: 9 }));
    bytes[28] = 7;
    check(&rt, is_fault(&bytes, KvpFault::Operation { value: 7 }));
}

// A get looks at no value, and a place at no text.
#[test]
fn what_is_not_asked_for_is_not_looked_at(rt: HostRuntime) {
    let mut bytes = set_message(&rt);
    bytes[28] = 0;
    bytes[40] = 1;
    bytes[562] = 1;
    check(&rt, decode(&bytes).is_ok());
    check(&rt, decode(&[3; 2608]).is_ok());
    let mut placed = [0; 2608];
    placed[28] = 3;
    check(&rt, decode(&placed).is_ok());
}

#[test]
fn the_longest_texts_fit(rt: HostRuntime) {
    let m = Kvp::Set {
        pool: 4,
        key: of(&rt, &[0xffff; 255]),
        value: of(&rt, &[0x0101; 1023]),
    };
    let mut bytes = [0; 2608];
    check(&rt, encode(&m, &mut bytes) == 2604);
    stand(&rt, &bytes, 36, &[0, 2, 0, 0, 0, 8, 0, 0]);
    match decode(part(&rt, &bytes, 0, 2604)) {
        Ok(Kvp::Set { pool, key, value }) => {
            check(&rt, pool == 4);
            check(&rt, key.units() == [0xffff; 255].as_slice());
            check(&rt, value.units().len() == 1023);
        }
        _ => check(&rt, false),
    }
}

// Answers a message that isn't refused.
fn answer_message(rt: &impl Abort, request: &[u8], reply: &KvpReply, out: &mut [u8]) {
    check(rt, request.len() >= 28);
    check(rt, request.len() <= out.len());
    match decode(request) {
        Ok(_) => {
            let len = answer(request, reply, out);
            check(rt, len == request.len());
        }
        Err(_) => check(rt, false),
    }
}

// Answers a message with a status alone.
fn answer_status(rt: &impl Abort, request: &[u8], status: u32, out: &mut [u8]) {
    check(rt, request.len() >= 28);
    check(rt, request.len() <= out.len());
    let len = answer(request, &KvpReply::of_status(status), out);
    check(rt, len == request.len());
}

// A get with bytes behind its key and in its value's field.
fn get_message(rt: &impl Abort) -> [u8; 2608] {
    let mut request = set_message(rt);
    request[28] = 0;
    request
}

#[test]
fn an_answer_carries_the_reply(rt: HostRuntime) {
    let request = get_message(&rt);
    let mut out = [0xee; 2608];
    let reply = KvpReply {
        status: 0,
        key: None,
        value: Some(value(&rt, "q")),
    };
    answer_message(&rt, part(&rt, &request, 0, 2604), &reply, &mut out);
    stand(&rt, &out, 20, &[0, 0, 0, 0, 0, 5]);
    stand(&rt, &out, 40, &[4, 0, 0, 0]);
    stand(&rt, &out, 556, &[b'q', 0, 0, 0, 0, 0, 0, 0]);
    stand(&rt, &out, 44, part(&rt, &request, 44, 50));
    stand(&rt, &out, 2604, &[0xee; 4]);
    match read_reply(&out) {
        Some(r) => {
            check(&rt, r.status == 0 && r.key.is_none());
            match r.value {
                Some(text) => check(&rt, is(text.units(), "q")),
                None => check(&rt, false),
            }
        }
        None => check(&rt, false),
    }
}

#[test]
fn a_refusal_has_its_status_alone(rt: HostRuntime) {
    let request = get_message(&rt);
    let mut out = [0xee; 2608];
    answer_status(&rt, part(&rt, &request, 0, 2604), 0x8007_0103, &mut out);
    stand(&rt, &out, 20, &[3, 1, 7, 0x80, 0, 5]);
    stand(&rt, &out, 26, part(&rt, &request, 26, 2604));
    match read_reply(part(&rt, &out, 0, 28)) {
        Some(r) => check(
            &rt,
            r.status == 0x8007_0103 && r.key.is_none() && r.value.is_none(),
        ),
        None => check(&rt, false),
    }
    check(&rt, read_reply(part(&rt, &out, 0, 27)).is_none());
}

#[test]
fn a_pair_is_answered(rt: HostRuntime) {
    let mut request = [0; 2608];
    let m = Kvp::Enum { pool: 1, index: 7 };
    check(&rt, encode(&m, &mut request) == 2608);
    let reply = KvpReply {
        status: 0,
        key: Some(key(&rt, "color")),
        value: Some(value(&rt, "")),
    };
    let mut out = [0; 2608];
    answer_message(&rt, &request, &reply, &mut out);
    stand(&rt, &out, 32, &[7, 0, 0, 0]);
    stand(&rt, &out, 40, &[12, 0, 0, 0, 2, 0, 0, 0]);
    match read_reply(&out) {
        Some(r) => match (r.key, r.value) {
            (Some(name), Some(text)) => {
                check(&rt, is(name.units(), "color"));
                check(&rt, text.units().is_empty());
            }
            _ => check(&rt, false),
        },
        None => check(&rt, false),
    }
    // A text that isn't one, and too few bytes.
    out[48] = 0;
    check(&rt, read_reply(&out).is_none());
    check(&rt, read_reply(part(&rt, &out, 0, 2607)).is_none());
}

#[test]
fn a_refused_message_is_answered(rt: HostRuntime) {
    let request = [0; 2604];
    let mut out = [0xee; 2608];
    match decode(&request) {
        Ok(_) => check(&rt, false),
        Err(fault) => answer_status(&rt, &request, fault.reply().status, &mut out),
    }
    stand(&rt, &out, 0, &[0; 20]);
    stand(&rt, &out, 20, &[0x57, 0, 7, 0x80, 0, 5]);
    stand(&rt, &out, 26, &[0; 2578]);
    stand(&rt, &out, 2604, &[0xee; 4]);
}

#[test]
fn a_header_alone_is_answered(rt: HostRuntime) {
    let mut out = [0xee; 2608];
    answer_status(&rt, &[0; 28], 0x8007_0057, &mut out);
    match read_reply(part(&rt, &out, 0, 28)) {
        Some(r) => check(&rt, r.status == 0x8007_0057),
        None => check(&rt, false),
    }
    stand(&rt, &out, 28, &[0xee; 2580]);
}

#[test]
fn a_request_is_encoded_and_decoded(rt: HostRuntime) {
    let m = Kvp::Delete {
        pool: 4,
        key: key(&rt, "color"),
    };
    match encode_and_decode(&m) {
        Ok(Kvp::Delete { pool, key }) => {
            check(&rt, pool == 4);
            check(&rt, is(key.units(), "color"));
        }
        _ => check(&rt, false),
    }
}
