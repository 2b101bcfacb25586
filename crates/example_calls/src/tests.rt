//! The parts, run once each.
ghost use Rattle.std.specs.Prelude.{◌≡◌, true};

use crate::{
    AtomicWords, SharedSeat, answer_keepalive, is_free, lend_word, pass_one, release, send_one,
    serve_srb, settle, share, take_one, take_piece,
};
use gpadl::Assembler;
use ring_core::{End, Room, Side, Signalled, SoloMem};
use ring_lean_end::DriverEnd;
use scsi_disk::Disk;
use std::alloc::AllocGlobal;
use std::process::Abort;
use stor_proto::Vstor;
use txn_table::TxnTable;
use vmbus_msg::encode;

/// Stops the test unless this holds.
fn check(rt: &impl Abort, holds: bool)
    ensures { holds ≡ true }
{
    assert!(rt; holds);
}

#[test]
fn a_rescinded_channel_is_released(rt: HostRuntime) {
    let mut out = [0; 240];
    let rescind = [2u8, 0, 0, 0, 0, 0, 0, 0, 7, 0, 0, 0];
    check(&rt, release(&rescind, &mut out) == Some(12));
    check(&rt, out[..12] == [13u8, 0, 0, 0, 0, 0, 0, 0, 7, 0, 0, 0]);
    check(&rt, release(&rescind[..11], &mut out).is_none());
}

#[test]
fn thirty_pages_are_shared(rt: HostRuntime) {
    let alloc = rt.alloc();
    let mut lists = Assembler::make(alloc);
    let mut whole = 0;
    for message in share(alloc, &[5; 30]).expect(&rt, "memory").iter() {
        let mut out = [0; 240];
        let len = encode(message, &mut out);
        if let Some(list) = take_piece(&mut lists, &out[..len]) {
            whole = list.pages.len();
        }
    }
    check(&rt, whole == 30);
}

#[test]
fn an_id_is_settled_once(rt: HostRuntime) {
    let mut table = TxnTable::make(rt.alloc(), 2).expect(&rt, "memory");
    let id = table.accept(9).unwrap_or(0);
    check(&rt, settle(&mut table, id) == Some(9));
    check(&rt, settle(&mut table, id).is_none());
}

#[test]
fn a_keepalive_is_answered(rt: HostRuntime) {
    let mut out = [0; 1600];
    let ask = [8u8, 0, 0, 0, 12, 0, 0, 0, 5, 0, 0, 0];
    check(&rt, answer_keepalive(&ask, &mut out) == Some(16));
    check(
        &rt,
        out[..16] == [8u8, 0, 0, 128, 16, 0, 0, 0, 5, 0, 0, 0, 0, 0, 0, 0],
    );
}

#[test]
fn a_disk_is_ready(rt: HostRuntime) {
    let mut disk = Disk::make(rt.alloc(), 64, &[]).expect(&rt, "memory");
    let ask = Vstor {
        operation: 3,
        flags: 1,
        status: 0,
        rest: [0; 52],
    };
    let answer = serve_srb(&mut disk, &ask, &[]);
    check(&rt, answer.operation == 1);
    check(&rt, answer.rest[2] == 1);
}

// Both ends over the same words.
#[test]
fn a_packet_goes_through_shared_words(rt: HostRuntime) {
    let alloc = rt.alloc();
    let (shared, other) = AtomicWords::make(alloc, 4096).expect(&rt, "memory");
    let mut guest = End::make(alloc, Side::Guest, 4096, SharedSeat::over(shared, 4096), 0).expect(
        &rt, "memory",
    );
    let mut host = End::make(alloc, Side::Host, 4096, SharedSeat::over(other, 4096), 0).expect(
        &rt, "memory",
    );
    let room = Room {
        packets: 4,
        words: 600,
    };
    guest.reserve(room, room).expect(&rt, "memory");
    host.reserve(room, room).expect(&rt, "memory");
    check(
        &rt,
        send_one(&mut guest, &[0x0000_0002_0002_0006, 9]) == Some(Ok(Signalled::Quiet)),
    );
    check(&rt, take_one(&mut host) == Some(Ok(Signalled::Quiet)));
    check(&rt, host.got().len() == 1);
    drop(guest);
    drop(host);
}

#[test]
fn a_packet_goes_through_ends_that_keep_none(rt: HostRuntime) {
    let alloc = rt.alloc();
    let (shared, other) = AtomicWords::make(alloc, 4096).expect(&rt, "memory");
    let mut guest = DriverEnd::make(
        alloc,
        Side::Guest,
        4096,
        SharedSeat::over(shared, 4096),
    ).expect(&rt, "memory");
    let mut host = DriverEnd::make(alloc, Side::Host, 4096, SharedSeat::over(other, 4096)).expect(
        &rt, "memory",
    );
    check(&rt, is_free(&guest) && is_free(&host));
    check(&rt, !pass_one(&mut guest, &mut host, &[9]));
    for i in 0..2000u64 {
        check(
            &rt,
            pass_one(&mut guest, &mut host, &[0x0000_0003_0002_0006, i, 9]),
        );
    }
    drop(guest);
    drop(host);
}

// A packet of type 9 that lends page 1 with its first 16 bytes.
const LENDS: [u64; 6] = [0x0001_0006_0005_0009, 1, 0x1_0000_0000, 16, 1, 9];

// A guest's end of a channel with two data pages.
fn guest_with_pages(rt: &(impl Abort + AllocGlobal)) -> End<SoloMem> {
    let memory = SoloMem::make(rt.alloc(), 4096, 2).expect(rt, "memory");
    let mut guest = End::make(rt.alloc(), Side::Guest, 4096, memory, 2).expect(rt, "memory");
    let room = Room {
        packets: 4,
        words: 2048,
    };
    guest.reserve(room, room).expect(rt, "memory");
    guest
}

// Whether these words went with the first packet that an end sent.
fn lent(end: End<SoloMem>, want: &[u64]) -> bool {
    let (_, sent, _) = end.into_parts();
    match sent.lent(0) {
        Some(words) => words == want,
        None => false,
    }
}

#[test]
fn a_word_is_lent_with_its_page(rt: HostRuntime) {
    let mut guest = guest_with_pages(&rt);
    check(
        &rt,
        lend_word(&mut guest, 1, 1, 77, &LENDS) == Some(Ok(Signalled::Quiet)),
    );
    check(&rt, lent(guest, &[0, 77]));
}

#[test]
fn a_page_that_is_lent_is_refused(rt: HostRuntime) {
    let mut guest = guest_with_pages(&rt);
    check(&rt, lend_word(&mut guest, 1, 1, 77, &LENDS).is_some());
    check(&rt, lend_word(&mut guest, 1, 1, 78, &LENDS).is_none());
    check(&rt, lend_word(&mut guest, 2, 0, 78, &LENDS).is_none());
    drop(guest);
}
