//! Messages and answers against messages laid out by Linux's structs.

ghost use Rattle.std.specs.Prelude.{◌≡◌, ◌≤◌, length};
ghost use Rattle.util_ic.specs.Messages.{IsUtility};

use crate::check::check;
use crate::hex::unhex;
use contact::DeviceKind;
use hist_lock::Machine;
use std::process::Abort;
use util_ic::{
    BeatMachine, DownMachine, IcAnswer, IcAsk, ask, negotiate, read_answer, read_ask, serve,
};

// The first bytes of a buffer.
fn front(bytes: &[u8; 2112], len: usize) -> &[u8]
    requires { len ≤ 2112 }
    ensures { length result.now ≡ len }
{
    &bytes[..len]
}

// The bytes that hexadecimal digits spell, with zeros after them.
fn spelled(rt: &impl Abort, digits: &str) -> [u8; 2112] {
    let mut out = [0; 2112];
    unhex(rt, digits, &mut out);
    out
}

// A request of so many bytes, of which the first are given, is answered so; what follows is zero.
fn answers(rt: &impl Abort, kind: DeviceKind, len: usize, request: &str, answer: &str)
    requires kind { IsUtility kind }
    requires len { len ≤ 2112 }
{
    let mut reply = [0xee; 2112];
    let count = serve(front(&spelled(rt, request), len), kind, &mut reply);
    check(rt, count == len.max(28));
    check(rt, &reply[..count] == &spelled(rt, answer)[..count]);
    check(rt, reply[count..].iter().all(|byte| *byte == 0xee));
}

// How many bytes a request has, its first bytes, and those of its answer.
type Case = (usize, &'static str, &'static str);

// Each request is answered so.
fn all_answer(rt: &impl Abort, kind: DeviceKind, cases: &[Case])
    requires { IsUtility kind }
{
    for (len, request, answer) in cases {
        check(rt, *len <= 2112);
        answers(rt, kind, *len, request, answer);
    }
}

// Requests that both services answer alike.
const BOTH: &[Case] = &[
    // The start-up negotiate, 52 bytes
    (
        52,
        "000000002c0000000000000000000000000018000000000000030000020002000000000003000000010000000300000001",
        "000000002c0000000000000000000000000018000000000000050000010001000000000003000000030000000300000001",
    ),
    // Frame 1.0 message 1.0
    (
        44,
        "0000000024000000030000000000030000001000000000000003000001000100000000000100000001",
        "0000000024000000030000000000030000001000000000000005000001000100000000000100000001",
    ),
    // Frame 2.0 message 3.0
    (
        44,
        "0000000024000000030000000000030000001000000000000003000001000100000000000200000003",
        "0000000024000000030000000000030000001000000000000005000000000000000000000200000003",
    ),
    // Counts past the end
    (
        44,
        "00000000240000000300000000000300000010000000000000030000020002",
        "00000000240000000300000000000300000010000540008000050000020002",
    ),
    // No versions
    (
        44,
        "0000000024000000030000000000030000001000000000000003",
        "0000000024000000030000000000030000001000000000000005",
    ),
    // 35 bytes
    (
        35,
        "0000000024000000030000000000030000001000000000000003",
        "0000000024000000030000000000030000001000054000800005",
    ),
    // 28 bytes
    (
        28,
        "0000000024000000030000000000030000001000000000000003",
        "0000000024000000030000000000030000001000054000800005",
    ),
    // 8 bytes
    (
        8,
        "0000000024",
        "0000000000000000000000000000000000000000054000800005",
    ),
    // Shutdown flags 4
    (
        2088,
        "0000000020080000030000000300030000000c080000000000030000000000000000000004",
        "0000000020080000030000000300030000000c080540008000050000000000000000000004",
    ),
    // Shutdown flags 6
    (
        2088,
        "0000000020080000030000000300030000000c080000000000030000000000000000000006",
        "0000000020080000030000000300030000000c080540008000050000000000000000000006",
    ),
    // Shutdown flags 2147483648
    (
        2088,
        "0000000020080000030000000300030000000c080000000000030000000000000000000000000080",
        "0000000020080000030000000300030000000c080540008000050000000000000000000000000080",
    ),
    // Shutdown cut at 39 bytes
    (
        39,
        "0000000020080000030000000300030000000c08000000000003",
        "0000000020080000030000000300030000000c08054000800005",
    ),
    // Heartbeat of 35 bytes
    (
        35,
        "000000001c000000030000000100030000000800000000000003000011111111111111",
        "000000001c000000030000000100030000000800054000800005000011111111111111",
    ),
    // Type 9
    (
        36,
        "000000001c00000003000000090003000000080000000000000300001111111111111111",
        "000000001c00000003000000090003000000080005400080000500001111111111111111",
    ),
];

#[test]
fn answers_on_both_channels(rt: HostRuntime) {
    all_answer(&rt, DeviceKind::Beat, BOTH);
    all_answer(&rt, DeviceKind::Down, BOTH);
}

// Requests on a heartbeat channel.
const BEAT: &[Case] = &[
    // Heartbeat seq 41
    (
        68,
        "000000003c000000030000000100030000002800000000000003000029",
        "000000003c00000003000000010003000000280000000000000500002a",
    ),
    // Heartbeat seq 18446744073709551615
    (
        68,
        "000000003c0000000300000001000300000028000000000000030000ffffffffffffffff",
        "000000003c000000030000000100030000002800000000000005",
    ),
    // Shutdown flags 0
    (
        2088,
        "0000000020080000030000000300030000000c08000000000003",
        "0000000020080000030000000300030000000c08054000800005",
    ),
    // Shutdown flags 2
    (
        2088,
        "0000000020080000030000000300030000000c080000000000030000000000000000000002",
        "0000000020080000030000000300030000000c080540008000050000000000000000000002",
    ),
    // Transaction 9, reserved 1
    (
        36,
        "000000001c00000003000000010003000000080000000000090301001111111111111111",
        "000000001c00000003000000010003000000080000000000090501001211111111111111",
    ),
];

#[test]
fn answers_on_a_heartbeat_channel(rt: HostRuntime) {
    all_answer(&rt, DeviceKind::Beat, BEAT);
}

// Requests on a shutdown channel.
const DOWN: &[Case] = &[
    // Heartbeat seq 41
    (
        68,
        "000000003c000000030000000100030000002800000000000003000029",
        "000000003c000000030000000100030000002800054000800005000029",
    ),
    // Heartbeat seq 18446744073709551615
    (
        68,
        "000000003c0000000300000001000300000028000000000000030000ffffffffffffffff",
        "000000003c0000000300000001000300000028000540008000050000ffffffffffffffff",
    ),
    // Shutdown flags 0
    (
        2088,
        "0000000020080000030000000300030000000c08000000000003",
        "0000000020080000030000000300030000000c08000000000005",
    ),
    // Shutdown flags 2
    (
        2088,
        "0000000020080000030000000300030000000c080000000000030000000000000000000002",
        "0000000020080000030000000300030000000c080000000000050000000000000000000002",
    ),
    // Transaction 9, reserved 1
    (
        36,
        "000000001c00000003000000010003000000080000000000090301001111111111111111",
        "000000001c00000003000000010003000000080005400080090501001111111111111111",
    ),
];

#[test]
fn answers_on_a_shutdown_channel(rt: HostRuntime) {
    all_answer(&rt, DeviceKind::Down, DOWN);
}

// The host's request is these bytes, with zeros after them, and the guest reads it.
fn asked(rt: &impl Abort, kind: DeviceKind, request: &IcAsk, len: usize, bytes: &str)
    requires kind { IsUtility kind }
    requires len { len ≤ 2112 }
{
    let mut out = [0xee; 2112];
    check(rt, ask(request, &mut out) == len);
    check(rt, front(&out, len) == front(&spelled(rt, bytes), len));
    check(rt, out[len..].iter().all(|byte| *byte == 0xee));
    check(rt, read_ask(front(&out, len), kind) == Some(*request));
}

// The host offers versions by these bytes.
fn offered(rt: &impl Abort, kind: DeviceKind, bytes: &str)
    requires { IsUtility kind }
{
    let mut out = [0xee; 2112];
    check(rt, negotiate(kind, &mut out) == 52);
    check(rt, front(&out, 52) == front(&spelled(rt, bytes), 52));
    check(rt, read_ask(front(&out, 52), kind) == None);
}

#[test]
fn requests(rt: HostRuntime) {
    let offers =
        "000000002c0000000000000000000000000018000000000000030000020002000000000003000000010000000300000001";
    offered(&rt, DeviceKind::Beat, offers);
    offered(&rt, DeviceKind::Down, offers);
    asked(
        &rt,
        DeviceKind::Beat,
        &IcAsk::Beat { seq: 41 },
        68,
        "000000003c000000030000000100030000002800000000000003000029",
    );
    asked(
        &rt,
        DeviceKind::Down,
        &IcAsk::Down {
            reason: 0,
            timeout: 0,
            flags: 2,
        },
        2088,
        "0000000020080000030000000300030000000c080000000000030000000000000000000002",
    );
}

// A request is answered by the service's machine.
fn served(rt: &impl Abort, kind: DeviceKind, request: &IcAsk, answer: IcAnswer)
    requires { IsUtility kind }
{
    let mut message = [0; 2112];
    let len = ask(request, &mut message);
    let mut reply = [0; 2112];
    let count = serve(front(&message, len), kind, &mut reply);
    check(rt, read_answer(front(&reply, count), kind) == answer);
}

#[test]
fn answers_are_the_machines(rt: HostRuntime) {
    let refused = IcAnswer {
        status: 0x8000_4005,
        seq: 0,
    };
    let last = IcAsk::Beat { seq: u64::MAX };
    let restart = IcAsk::Down {
        reason: 1,
        timeout: 2,
        flags: 3,
    };
    let hibernate = IcAsk::Down {
        reason: 1,
        timeout: 2,
        flags: 4,
    };
    let good = IcAnswer { status: 0, seq: 0 };
    let mut beat = BeatMachine::make();
    check(&rt, beat.apply(&last) == good);
    check(&rt, beat.apply(&restart) == refused);
    let mut down = DownMachine::make();
    check(&rt, down.apply(&restart) == good);
    check(&rt, down.apply(&hibernate) == refused);
    check(&rt, down.apply(&last) == refused);
    served(&rt, DeviceKind::Beat, &last, good);
    served(&rt, DeviceKind::Down, &restart, good);
    served(&rt, DeviceKind::Down, &hibernate, refused);
    served(
        &rt,
        DeviceKind::Beat,
        &restart,
        IcAnswer {
            status: 0x8000_4005,
            seq: 0x0000_0002_0000_0001,
        },
    );
}

// The front of an answer that has so many bytes is read so. A field that isn't whole counts as 0.
fn is_read(rt: &impl Abort, kind: DeviceKind, len: usize, status: u32, seq: u64)
    requires kind { IsUtility kind }
    requires len { len ≤ 2112 }
{
    let answer = spelled(
        rt,
        "00000000000000000000000000000000000000000540008000050000ff",
    );
    check(
        rt,
        read_answer(front(&answer, len), kind) == IcAnswer { status, seq },
    );
}

#[test]
fn cut_answers(rt: HostRuntime) {
    is_read(&rt, DeviceKind::Beat, 24, 0x8000_4005, 0);
    is_read(&rt, DeviceKind::Beat, 35, 0x8000_4005, 0);
    is_read(&rt, DeviceKind::Beat, 36, 0x8000_4005, 255);
    is_read(&rt, DeviceKind::Beat, 23, 0, 0);
    is_read(&rt, DeviceKind::Down, 36, 0x8000_4005, 0);
}
