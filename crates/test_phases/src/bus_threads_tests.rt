//! A channel of each kind of device, with three requests each.
ghost use Rattle.std.specs.Prelude.{◌≡◌, ◌≤◌, length, true, vec_len};
ghost use Rattle.contact.specs.declared.kind.DeviceKind.{DeviceKind as OneKind};
ghost use Rattle.script_lines.specs.Parts.{kind_asked};
ghost use Rattle.script_lines.specs.Requests.{CanBeCarried};
ghost use Rattle.script_lines.specs.WellFormed.{CanGo};
ghost use Rattle.worker_pair.specs.Plans.{AllCarried, CanStop, stop_of};

use crate::check::check;
use crate::only_seat::only_seat;
use bus_script::{Ask, Reply};
use bus_threads::{Pair, PairDone, open_pair, run_pair, run_phase};
use chan_state::Stop;
use contact::DeviceKind;
use device_any::DeviceSeat;
use device_wire::BufferLists;
use io_edge::NoGate;
use net_dev::Station;
use ring_core::Packets;
use rndis_msg::{Rndis, Small};
use scsi_disk::{Chunk, Command, Disk, DiskReply, DiskRequest};
use std::alloc::AllocGlobal;
use std::process::Abort;
use std::sync::Wait;
use util_ic::{BeatMachine, DownMachine, IcAsk};

// Three requests to a device of this kind, in a list.
fn three(rt: &(impl Abort + AllocGlobal), kind: DeviceKind, asks: [Ask; 3]) -> Vec<Ask>
    requires { AllCarried kind asks }
    ensures all { AllCarried kind result.items }
    ensures count { length result.items ≡ 3 }
{
    Vec::from_array(rt.alloc(), asks).expect(rt, "memory")
}

// The heartbeats 7, 8 and 9.
fn beats(rt: &(impl Abort + AllocGlobal)) -> Pair {
    let alloc = rt.alloc();
    let asks = three(
        rt,
        DeviceKind::Beat,
        [
            Ask::Ic(IcAsk::Beat { seq: 7 }),
            Ask::Ic(IcAsk::Beat { seq: 8 }),
            Ask::Ic(IcAsk::Beat { seq: 9 }),
        ],
    );
    let seat = only_seat(alloc, BeatMachine::make(), 3).expect(rt, "memory");
    open_pair(
        alloc,
        DeviceKind::Beat,
        1,
        0,
        0,
        1,
        2,
        DeviceSeat::Beat(seat),
        asks,
        None,
        BufferLists::NONE,
    )
    .expect(rt, "memory")
}

// A shutdown with these flags.
fn down(flags: u32) -> Ask
    ensures kind { kind_asked result ≡ OneKind.Down }
    ensures goes { CanGo result }
{
    Ask::Ic(IcAsk::Down {
        reason: 1,
        timeout: 2,
        flags,
    })
}

// Two shutdowns, and a hibernation between them.
fn downs(rt: &(impl Abort + AllocGlobal)) -> Pair {
    let alloc = rt.alloc();
    let asks = three(rt, DeviceKind::Down, [down(0), down(4), down(1)]);
    let seat = only_seat(alloc, DownMachine::make(), 3).expect(rt, "memory");
    open_pair(
        alloc,
        DeviceKind::Down,
        2,
        0,
        0,
        2,
        1,
        DeviceSeat::Down(seat),
        asks,
        None,
        BufferLists::NONE,
    )
    .expect(rt, "memory")
}

// Whether this is a read or a write that a disk's channel carries.
fn is_carried(cdb: &[u8; 16], out: &[u8]) -> bool
    ensures { result ≡ true → CanBeCarried (record { cdb = cdb.now; out = out.now }) }
{
    match Command::of(cdb) {
        Some(Command::Write { lba: _, count }) => count <= 8 && out.len() as u64 == 512 * count,
        Some(Command::Read { lba: _, count }) => count <= 8 && out.is_empty(),
        _ => false,
    }
}

// A command of 10 bytes with this data.
fn command(rt: &impl Abort, front: [u8; 10], out: &[u8]) -> Ask
    requires { length out.now ≤ 4096 }
    ensures kind { kind_asked result ≡ OneKind.Disk }
    ensures goes { CanGo result }
{
    let mut cdb = [0; 16];
    cdb[..10].copy_from_slice(&front);
    if !is_carried(&cdb, out) {
        panic!(rt; "its channel doesn't carry it");
    }
    Ask::Disk(DiskRequest {
        cdb,
        out: Chunk::of(out),
    })
}

// Block 3 is written and read, and block 5 can't be read. The disk serves all of it, or stops.
fn blocks(rt: &(impl Abort + AllocGlobal), stop: Option<Stop>) -> Pair
    requires { CanStop OneKind.Disk (stop_of stop) }
{
    let alloc = rt.alloc();
    let asks = three(
        rt,
        DeviceKind::Disk,
        [
            command(rt, [0x2a, 0, 0, 0, 0, 3, 0, 0, 1, 0], &[9; 512]),
            command(rt, [0x28, 0, 0, 0, 0, 3, 0, 0, 1, 0], &[]),
            command(rt, [0x28, 0, 0, 0, 0, 5, 0, 0, 1, 0], &[]),
        ],
    );
    let disk = Disk::make(alloc, 64, &[5]).expect(rt, "memory");
    let seat = only_seat(alloc, disk, 3).expect(rt, "memory");
    open_pair(
        alloc,
        DeviceKind::Disk,
        3,
        0,
        0,
        1,
        4,
        DeviceSeat::Disk(seat),
        asks,
        stop,
        BufferLists::NONE,
    )
    .expect(rt, "memory")
}

// A query of the greatest frame, a keepalive, and a query of nothing that an adapter has. The guest tells the page lists 7 and 8.
fn messages(rt: &(impl Abort + AllocGlobal)) -> Pair {
    let alloc = rt.alloc();
    let asks = three(
        rt,
        DeviceKind::Net,
        [
            Ask::Net(Rndis::Query {
                request_id: 0,
                oid: 0x1_0106,
                body: Small::empty(),
            }),
            Ask::Net(Rndis::Keepalive { request_id: 0 }),
            Ask::Net(Rndis::Query {
                request_id: 0,
                oid: 0x1_ffff,
                body: Small::empty(),
            }),
        ],
    );
    let station = Station::make([2, 0, 0, 0, 0, 1], [2, 0, 0, 0, 0, 0xfe]);
    let seat = only_seat(alloc, station, 3).expect(rt, "memory");
    open_pair(
        alloc,
        DeviceKind::Net,
        4,
        0,
        0,
        1,
        4,
        DeviceSeat::Net(seat),
        asks,
        None,
        BufferLists {
            receive: 7,
            send: 8,
        },
    )
    .expect(rt, "memory")
}

// Whether two lists have the same packets with the same page words, so many.
fn are_same(left: &Packets, right: &Packets, count: usize) -> bool {
    for i in 0..count {
        if left.get(i) != right.get(i) || left.lent(i) != right.lent(i) {
            return false;
        }
    }
    left.len() == count && right.len() == count
}

// Each packet of either end was got as it was sent, so many in each direction, and the calls have the serials 0 to 2.
fn check_pair(rt: &impl Abort, done: &PairDone, count: usize)
    ensures { vec_len done.now.replies ≡ 3 }
{
    check(
        rt,
        are_same(done.settled.guest_sent(), done.settled.host_got(), count),
    );
    check(
        rt,
        are_same(done.settled.host_sent(), done.settled.guest_got(), count),
    );
    check(rt, done.serials.as_slice() == [0, 1, 2].as_slice());
    check(rt, done.replies.len() == 3);
}

// The status and the sequence number of a service's reply.
fn ic(rt: &impl Abort, reply: &Reply) -> (u32, u64) {
    match reply {
        Reply::Ic(answer) => (answer.status, answer.seq),
        Reply::Disk(_) => panic!(rt; "a disk replied"),
        Reply::Net { .. } => panic!(rt; "a network replied"),
        Reply::Kvp(_) => panic!(rt; "a key-value service replied"),
    }
}

// A heartbeat's sequence number comes back one greater.
fn check_beats(rt: &impl Abort, done: &PairDone) {
    check_pair(rt, done, 4);
    for (i, seq) in [8, 9, 10].iter().enumerate() {
        check(rt, ic(rt, &done.replies[i]) == (0, *seq));
    }
}

// A guest refuses to hibernate.
fn check_downs(rt: &impl Abort, done: &PairDone) {
    check_pair(rt, done, 4);
    for (i, status) in [0, 0x8000_4005, 0].iter().enumerate() {
        check(rt, ic(rt, &done.replies[i]) == (*status, 0));
    }
}

// The page words of a packet are so many bytes 9.
fn check_words(rt: &impl Abort, list: &Packets, i: usize) {
    match list.lent(i) {
        Some(words) => check(rt, words == [0x0909_0909_0909_0909; 64].as_slice()),
        None => panic!(rt; "no packet"),
    }
}

// Behind the four packets of the start-up, the write's data stands in its page words, comes back with its completion, and so does that of the read.
fn check_blocks(rt: &impl Abort, done: &PairDone) {
    check_pair(rt, done, 7);
    check_words(rt, done.settled.guest_sent(), 4);
    check_words(rt, done.settled.host_sent(), 4);
    check_words(rt, done.settled.host_sent(), 5);
    match &done.replies[0] {
        Reply::Disk(DiskReply::Good(back)) => check(rt, back.bytes().is_empty()),
        _ => panic!(rt; "not written"),
    }
    match &done.replies[1] {
        Reply::Disk(DiskReply::Good(back)) => check(rt, back.bytes() == [9; 512].as_slice()),
        _ => panic!(rt; "not read"),
    }
    match &done.replies[2] {
        Reply::Disk(DiskReply::Check { key, asc, ascq }) => {
            check(rt, (*key, *asc, *ascq) == (3, 0x11, 0));
        }
        _ => panic!(rt; "a bad block was read"),
    }
}

// A word of a packet, or 0.
fn word(list: &Packets, i: usize, at: usize) -> u64 {
    match list.get(i) {
        Some(packet) => match packet.get(at) {
            Some(word) => *word,
            None => 0,
        },
        None => 0,
    }
}

// How many page words went with a packet.
fn put(list: &Packets, i: usize) -> usize {
    match list.lent(i) {
        Some(words) => words.len(),
        None => 0,
    }
}

// The guest's third and fourth packet tell both page lists, and the fifth one is an initialize, whose 24 bytes stand in a page. Each end got all packets and page words as they were sent: the guest
// acknowledged four messages.
fn check_messages(rt: &impl Abort, done: &PairDone) {
    let sent = done.settled.guest_sent();
    check(rt, are_same(sent, done.settled.host_got(), 12));
    check(
        rt,
        are_same(done.settled.host_sent(), done.settled.guest_got(), 11),
    );
    check(rt, word(sent, 2, 2) == 0x0000_0007_0000_0065);
    check(rt, word(sent, 3, 2) == 0x0000_0008_0000_0068);
    check(rt, put(sent, 3) == 0 && put(sent, 4) == 3);
    check(rt, done.serials.as_slice() == [0, 1, 2].as_slice());
    check(rt, done.replies.len() == 3);
}

// What the workers of a channel come to, by turns on this thread.
fn run(rt: &impl Wait, pair: Pair) -> PairDone {
    run_pair(rt, &NoGate, pair)
}

// What a channel comes to is let go by a call here and below: a value of so many parts costs a test much at its end.
#[test]
fn beats_by_turns(rt: HostRuntime) {
    let done = run(&rt, beats(&rt));
    check_beats(&rt, &done);
    drop(done);
}

#[test]
fn downs_by_turns(rt: HostRuntime) {
    let done = run(&rt, downs(&rt));
    check_downs(&rt, &done);
    drop(done);
}

#[test]
fn blocks_by_turns(rt: HostRuntime) {
    let done = run(&rt, blocks(&rt, None));
    check_blocks(&rt, &done);
    drop(done);
}

#[test]
fn messages_by_turns(rt: HostRuntime) {
    let done = run(&rt, messages(&rt));
    check_messages(&rt, &done);
    drop(done);
}

// A disk that stops behind two of its requests serves both, and so many are answered.
fn check_stop(rt: &(impl Abort + AllocGlobal + Wait), held: bool, answered: usize) {
    let done = run(rt, blocks(rt, Some(Stop { after: 2, held })));
    check(rt, done.serials.as_slice() == [0, 1].as_slice());
    check(rt, done.replies.len() == answered);
    drop(done);
}

// It answers both, or the first alone.
#[test]
fn a_disk_that_stops(rt: HostRuntime) {
    check_stop(&rt, false, 2);
    check_stop(&rt, true, 1);
}

// The three channels of a phase.
fn pairs(rt: &(impl Abort + AllocGlobal)) -> Vec<Pair>
    ensures { vec_len result ≡ 3 }
{
    let mut pairs = Vec::with_capacity(rt.alloc(), 3).expect(rt, "memory");
    pairs.push_reserved(beats(rt));
    pairs.push_reserved(downs(rt));
    pairs.push_reserved(blocks(rt, None));
    pairs
}

#[test]
fn a_phase_on_threads(rt: HostRuntime) {
    let mut done = Vec::with_capacity(rt.alloc(), 3).expect(&rt, "memory");
    run_phase(&rt, pairs(&rt), &mut done, &NoGate);
    check(&rt, done.len() == 3);
    check_beats(&rt, &done[0]);
    check_downs(&rt, &done[1]);
    check_blocks(&rt, &done[2]);
    drop(done);
}
