//! Scripts that are read or refused, and reports byte for byte.

ghost use Rattle.std.specs.Prelude.{◌≡◌, count_by};
ghost use Rattle.bus_script.specs.Report.{tells, prints};

use crate::check::check;
use bus_script::{
    Ask, DeviceSpec, LineResult, ParseFault, Reply, Script, ScriptFault, What, Why6, parse, report,
};
use contact::Version;
use rndis_msg::{Rndis, encode};
use std::alloc::Global;
use std::process::Abort;
use util_ic::{IcAnswer, IcAsk};

// The first wrong line and the reason, or none.
fn fault(alloc: Global, bytes: &[u8]) -> Option<ScriptFault> {
    match parse(alloc, bytes) {
        Ok(_) => None,
        Err(ParseFault::Script(fault)) => Some(fault),
        Err(ParseFault::Memory) => Some(ScriptFault {
            line: 0,
            why: Why6::Order,
        }),
    }
}

fn refused(rt: &(impl Abort + AllocGlobal), bytes: &[u8], line: u32, why: Why6) {
    check(
        rt,
        fault(rt.alloc(), bytes) == Some(ScriptFault { line, why }),
    );
}

fn accepted(rt: &(impl Abort + AllocGlobal), bytes: &[u8], lines: usize) {
    match parse(rt.alloc(), bytes) {
        Ok(script) => check(rt, script.lines().len() == lines),
        Err(_) => check(rt, false),
    }
}

pub fn check_accepted(rt: &(impl Abort + AllocGlobal), rows: &[(&[u8], usize)]) {
    for (bytes, lines) in rows {
        accepted(rt, bytes, *lines);
    }
}

pub fn check_forms(rt: &(impl Abort + AllocGlobal), rows: &[(&[u8], u32)]) {
    for (bytes, line) in rows {
        refused(rt, bytes, *line, Why6::Form);
    }
}

pub fn check_refused(rt: &(impl Abort + AllocGlobal), rows: &[(&[u8], u32, Why6)]) {
    for (bytes, line, why) in rows {
        refused(rt, bytes, *line, *why);
    }
}

pub fn script_of(rt: &(impl Abort + AllocGlobal), bytes: &[u8]) -> Script {
    let Ok(script) = parse(rt.alloc(), bytes) else {
        panic!(rt; "refused");
    };
    script
}

// The line at this place has this number, and says this.
pub fn check_line(rt: &impl Abort, script: &Script, at: usize, number: u32, want: &What) {
    match script.lines().get(at) {
        Some(line) => check(rt, line.number == number && same(&line.what, want)),
        None => check(rt, false),
    }
}

// The line at this place offers a device.
pub fn check_offer(rt: &impl Abort, script: &Script, at: usize, wanted: &[u8], spec: DeviceSpec) {
    match script.lines().get(at) {
        Some(line) => check(rt, offers(&line.what, wanted, spec)),
        None => check(rt, false),
    }
}

fn offers(what: &What, wanted: &[u8], spec: DeviceSpec) -> bool {
    match what {
        What::Offer { name, device } => name.bytes() == wanted && *device == spec,
        _ => false,
    }
}

const LINES: &[u8] =
    b"# one\r\n\ncontact  5.2 4.0\noffer hb hb \n offer shutdown s\nring s 16\nwindow hb 64\nbeat hb 18446744073709551615\ndown s 6\nclose s\nphase";

// What each line of a whole script says.
#[test]
fn reads_lines(rt: HostRuntime) {
    let script = script_of(&rt, LINES);
    check(&rt, script.lines().len() == 9);
    let contact = What::Contact {
        guest: Version(0x5_0002),
        host: Version(0x4_0000),
    };
    check_line(&rt, &script, 0, 3, &contact);
    check_offer(&rt, &script, 2, b"s", DeviceSpec::Down);
    let ring = What::RingSize {
        device: 1,
        pages: 16,
    };
    check_line(&rt, &script, 3, 6, &ring);
    let window = What::Window {
        device: 0,
        size: 64,
    };
    check_line(&rt, &script, 4, 7, &window);
    check_line(&rt, &script, 7, 10, &What::Shut { device: 1 });
    check_line(&rt, &script, 8, 11, &What::Phase);
    let script = script_of(&rt, b"offer hb a\noffer hb b\nmodify b 63\n");
    check_line(&rt, &script, 2, 3, &What::Modify { device: 1, vp: 63 });
}

// What its requests ask.
#[test]
fn reads_asks(rt: HostRuntime) {
    let script = script_of(&rt, LINES);
    let beat = IcAsk::Beat { seq: u64::MAX };
    let asks = What::Ask {
        device: 0,
        ask: Ask::Ic(beat),
    };
    check_line(&rt, &script, 5, 8, &asks);
    let down = IcAsk::Down {
        reason: 0,
        timeout: 0,
        flags: 6,
    };
    let asks = What::Ask {
        device: 1,
        ask: Ask::Ic(down),
    };
    check_line(&rt, &script, 6, 9, &asks);
}

fn same_message(a: &Rndis, b: &Rndis) -> bool {
    let mut first = [0; 1600];
    let mut second = [0; 1600];
    let len = encode(a, &mut first);
    let other = encode(b, &mut second);
    first[..len] == second[..other]
}

fn same_ask(a: &Ask, b: &Ask) -> bool {
    match (a, b) {
        (Ask::Ic(a), Ask::Ic(b)) => a == b,
        (Ask::Disk(a), Ask::Disk(b)) => a.cdb == b.cdb && a.out.bytes() == b.out.bytes(),
        (Ask::Net(a), Ask::Net(b)) => same_message(a, b),
        _ => false,
    }
}

fn same(a: &What, b: &What) -> bool {
    match (a, b) {
        (What::Contact { guest, host }, What::Contact { guest: g, host: h }) => {
            guest == g && host == h
        }
        (
            What::RingSize { device, pages },
            What::RingSize {
                device: d,
                pages: p,
            },
        ) => { device == d && pages == p }
        (What::Window { device, size }, What::Window { device: d, size: s }) => {
            device == d && size == s
        }
        (What::Bad { device, lba }, What::Bad { device: d, lba: l }) => device == d && lba == l,
        (What::Ask { device, ask }, What::Ask { device: d, ask: a }) => {
            device == d && same_ask(ask, a)
        }
        (
            What::Rescind {
                device,
                after,
                held,
            },
            What::Rescind {
                device: d,
                after: a,
                held: h,
            },
        ) => { device == d && after == a && held == h }
        (What::Shut { device }, What::Shut { device: d }) => device == d,
        (What::Modify { device, vp }, What::Modify { device: d, vp: v }) => device == d && vp == v,
        (What::Phase, What::Phase) => true,
        _ => false,
    }
}

// Whole scripts, and how many lines each has.
const ACCEPTED: [(&[u8], usize); 15] = [
    (b"", 0),
    (b"\n\r\n  \n# printable", 0),
    (b"offer hb hb\nbeat hb 41\n", 2),
    (b"offer shutdown sd\ndown sd 0\r\ndown sd 4294967295\r\n", 3),
    (b"offer hb abcdefghijklmno_\n", 1),
    (
        b"offer hb phase\noffer shutdown disk\nbeat phase 0\n#beat x 1\n",
        3,
    ),
    (b"contact 2.4 5.2\nphase\nphase\n", 3),
    (b"contact 3.0 5.0\n", 1),
    (b"offer hb a\nring a 1\nwindow a 1\nclose a\n", 4),
    (
        b"offer hb a\noffer hb b\nclose a\nphase\nclose b\nbeat a 1\n",
        6,
    ),
    (b"offer hb a\nring a 2\noffer hb b\nwindow a 2\n", 4),
    (b"offer hb modify\nmodify modify 63\n", 2),
    (
        b"offer hb a\noffer hb b\nmodify a 0\nmodify b 0\nphase\nmodify a 0\n",
        6,
    ),
    (
        b"offer disk d 8 3\nrescind d after 0\nphase\nmodify d 1\n",
        4,
    ),
    (
        b"offer shutdown s\nclose s\nmodify s 1\nphase\nmodify s 1\n",
        5,
    ),
];

#[test]
fn accepts(rt: HostRuntime) {
    check_accepted(&rt, &ACCEPTED);
}

// Scripts with a line that has no form, and that line.
const NO_FORM: [(&[u8], u32); 23] = [
    (b"beat hb 007\n", 1),
    (b"offer hb hb\nbeat hb 007\n", 2),
    (b"offer hb h\nbeat h 100000000000000000000\n", 2),
    (b"offer hb abcdefghijklmnopq\n", 1),
    (b"offer hb 0\n", 1),
    (b"offer hb\n", 1),
    (b"offer disk d\n", 1),
    (b"offer hb h\nbeat h\n", 2),
    (b"offer hb h\nbeat h 1 2\n", 2),
    (b"offer hb h\nbeat h 1\r", 2),
    (b"offer hb h\nbeat h 1\r\r\n", 2),
    (b"# \x7F\n", 1),
    (b"offer\thb h\n", 1),
    (b"contact 5.2\n", 1),
    (b"contact 5.02 5.2\n", 1),
    (b"contact 5.2.1 5.2\n", 1),
    (b"contact 5 5.2\n", 1),
    (b"contact 5.2 5.2 5.2\n", 1),
    (b"phase 1\n", 1),
    (b"close\n", 1),
    (b"offer hb a\nmodify a 01\n", 2),
    (b"offer hb a\nmodify a\n", 2),
    (b"offer hb a\nmodify a 1 1\n", 2),
];

#[test]
fn refuses_forms(rt: HostRuntime) {
    check_forms(&rt, &NO_FORM);
}

// Scripts with another wrong line, that line and why.
const REFUSED: [(&[u8], u32, Why6); 34] = [
    (b"beat hb 1\n", 1, Why6::UnknownName),
    (b"beat hb 18446744073709551616\n", 1, Why6::UnknownName),
    (b"offer shutdown s\nbeat s 1\n", 2, Why6::UnknownName),
    (b"offer hb h\ndown h 1\n", 2, Why6::UnknownName),
    (b"ring h 0\n", 1, Why6::UnknownName),
    (b"close h\n", 1, Why6::UnknownName),
    (b"offer hb a\noffer hb a\n", 2, Why6::Repeat),
    (b"offer hb a\noffer shutdown a\n", 2, Why6::Repeat),
    (b"offer hb a\nring a 1\nring a 17\n", 3, Why6::Repeat),
    (b"offer hb a\nwindow a 1\nwindow a 2\n", 3, Why6::Repeat),
    (b"offer hb a\nclose a\nclose a\n", 3, Why6::Repeat),
    (b"offer hb a\nclose a\nphase\nclose a\n", 4, Why6::Order),
    (b"offer hb a\nbeat a 1\noffer hb b\n", 3, Why6::Order),
    (b"offer hb a\nphase\nring b 0\n", 3, Why6::Order),
    (b"offer hb a\nclose a\nwindow a 1\n", 3, Why6::Order),
    (b"offer hb a\ncontact 5.2 5.2\n", 2, Why6::Order),
    (b"contact 5.2 5.2\ncontact 9.9 5.2\n", 2, Why6::Order),
    (b"phase\ncontact 5.2 5.2\n", 2, Why6::Order),
    (b"contact 5.4 5.2\n", 1, Why6::Range),
    (b"contact 4.65538 5.2\n", 1, Why6::Range),
    (b"contact 18446744073709551616.0 5.2\n", 1, Why6::Range),
    (b"contact 5.2 0.0\n", 1, Why6::Range),
    (b"offer hb a\nring a 0\n", 2, Why6::Range),
    (b"offer hb a\nring a 17\n", 2, Why6::Range),
    (b"offer hb a\nwindow a 0\n", 2, Why6::Range),
    (b"offer hb a\nwindow a 65\n", 2, Why6::Range),
    (
        b"offer hb hb\nbeat hb 18446744073709551616\n",
        2,
        Why6::Range,
    ),
    (
        b"offer hb hb\nbeat hb 99999999999999999999\n",
        2,
        Why6::Range,
    ),
    (b"offer shutdown s\ndown s 4294967296\n", 2, Why6::Range),
    (b"offer hb a\nmodify a 64\n", 2, Why6::Range),
    (b"modify a 64\n", 1, Why6::UnknownName),
    (b"offer hb a\nmodify a 1\nmodify a 64\n", 3, Why6::Repeat),
    (
        b"offer hb a\nphase\nmodify a 1\nmodify a 1\n",
        4,
        Why6::Repeat,
    ),
    (b"offer hb a\nmodify a 1\noffer hb b\n", 3, Why6::Order),
];

#[test]
fn refuses_others(rt: HostRuntime) {
    check_refused(&rt, &REFUSED);
}

// The head, a piece so many times, and the end.
pub fn repeated(
    rt: &(impl Abort + AllocGlobal),
    head: &[u8],
    piece: &[u8],
    count: u32,
    end: &[u8],
) -> Vec<u8> {
    let mut bytes = Vec::new(rt.alloc());
    check(rt, bytes.extend_from_slice(head).is_ok());
    for _ in 0..count {
        check(rt, bytes.extend_from_slice(piece).is_ok());
    }
    check(rt, bytes.extend_from_slice(end).is_ok());
    bytes
}

#[test]
fn limit_of_lines(rt: HostRuntime) {
    accepted(&rt, &repeated(&rt, b"", b"#\n", 20_000, b""), 0);
    refused(
        &rt,
        &repeated(&rt, b"", b"#\n", 20_000, b"\n"),
        20_001,
        Why6::Limit,
    );
    refused(
        &rt,
        &repeated(&rt, b"", b"#\n", 20_000, b"# \x1F"),
        20_001,
        Why6::Form,
    );
}

// As many requests as a script may have, and the end.
fn asks(rt: &(impl Abort + AllocGlobal), end: &[u8]) -> Vec<u8> {
    repeated(rt, b"offer hb h\n", b"beat h 1\n", 4_096, end)
}

#[test]
fn limit_of_asks(rt: HostRuntime) {
    accepted(&rt, &asks(&rt, b""), 4_097);
    refused(
        &rt,
        &asks(&rt, b"beat g 18446744073709551616\n"),
        4_098,
        Why6::Limit,
    );
    accepted(&rt, &asks(&rt, b"phase\nbeat h 1\n"), 4_099);
}

const OFFERS: &[u8] =
    b"offer hb a\noffer hb b\noffer hb c\noffer hb d\noffer hb e\noffer hb f\noffer hb g\noffer hb h\noffer hb i\noffer hb j\noffer hb k\noffer hb l\noffer hb m\noffer hb n\noffer hb o\noffer hb p\n";

#[test]
fn limit_of_offers(rt: HostRuntime) {
    accepted(&rt, OFFERS, 16);
    refused(
        &rt,
        &repeated(&rt, OFFERS, b"", 0, b"offer hb a\n"),
        17,
        Why6::Limit,
    );
}

fn done(serial: u32, status: u32, seq: u64) -> LineResult {
    let reply = Reply::Ic(IcAnswer { status, seq });
    LineResult::Done { serial, reply }
}

fn count_prints(script: &Script) -> usize
    ensures { result ≡ count_by prints script.now }
{
    script.lines().iter().filter(|l| tells(&l.what)).count()
}

fn tells(what: &What) -> bool
    ensures { result ≡ tells what.now }
{
    matches!(
        what,
        What::Contact { .. } | What::Ask { .. } | What::Modify { .. }
    )
}

// The report of these bytes with these outcomes is this text.
pub fn reported(
    rt: &(impl Abort + AllocGlobal),
    bytes: &[u8],
    results: &[LineResult],
    wanted: &[u8],
) {
    let script = script_of(rt, bytes);
    check(rt, results.len() == count_prints(&script));
    match report(rt.alloc(), &script, results) {
        Ok(text) => check(rt, text.as_slice() == wanted),
        Err(_) => check(rt, false),
    }
}

// A line that moves interrupts isn't counted as a request.
#[test]
fn reports_moves(rt: HostRuntime) {
    reported(
        &rt,
        b"contact 5.3 5.3\noffer hb hb\nmodify hb 3\nbeat hb 41\n",
        &[
            LineResult::Version { tried: 1 },
            LineResult::Modified {
                vp: 3,
                answered: true,
            },
            done(0, 0, 42),
        ],
        b"1 version 5.3 tried 5.3\n3 modified 3\n4 done @0 seq 42\nend requests 1 done 1 rescinded 0\n",
    );
    reported(
        &rt,
        b"offer hb a\noffer hb b\nmodify a 63\nmodify b 0\nclose a\nphase\nmodify a 1\nmodify b 1\n",
        &[
            LineResult::Modified {
                vp: 63,
                answered: false,
            },
            LineResult::Unsupported,
            LineResult::Closed,
            LineResult::Gone,
        ],
        b"3 modified 63 unanswered\n4 modify unsupported\n7 closed\n8 gone\nend requests 0 done 0 rescinded 0\n",
    );
}

#[test]
fn reports(rt: HostRuntime) {
    reported(&rt, b"", &[], b"end requests 0 done 0 rescinded 0\n");
    reported(
        &rt,
        b"contact 5.2 4.0\n",
        &[LineResult::Version { tried: 5 }],
        b"1 version 4.0 tried 5.2 5.1 5.0 4.1 4.0\nend requests 0 done 0 rescinded 0\n",
    );
    reported(
        &rt,
        b"contact 5.3 4.0\n",
        &[LineResult::Version { tried: 6 }],
        b"1 version 4.0 tried 5.3 5.2 5.1 5.0 4.1 4.0\nend requests 0 done 0 rescinded 0\n",
    );
    reported(
        &rt,
        b"contact 3.0 2.4\n",
        &[LineResult::Version { tried: 2 }],
        b"1 version 2.4 tried 3.0 2.4\nend requests 0 done 0 rescinded 0\n",
    );
    reported(
        &rt,
        b"offer hb hb\nbeat hb 41\n",
        &[done(0, 0, 42)],
        b"2 done @0 seq 42\nend requests 1 done 1 rescinded 0\n",
    );
    reported(
        &rt,
        b"offer shutdown sd\ndown sd 0\ndown sd 4\n",
        &[done(0, 0, 0), done(1, 0x8000_4005, 0)],
        b"2 done @0 status 0x00000000\n3 done @1 status 0x80004005\nend requests 2 done 2 rescinded 0\n",
    );
    reported(
        &rt,
        b"contact 5.2 5.2\noffer hb h\nring h 2\nwindow h 8\nbeat h 1\nbeat h 2\nclose h\nphase\nbeat h 3\nbeat h 4\n",
        &[
            LineResult::Version { tried: 1 },
            LineResult::RescindedServed { serial: 9 },
            LineResult::Unserved,
            LineResult::Gone,
            LineResult::Closed,
        ],
        b"1 version 5.2 tried 5.2\n5 rescinded @9\n6 rescinded unserved\n9 gone\n10 closed\nend requests 4 done 0 rescinded 2\n",
    );
}
