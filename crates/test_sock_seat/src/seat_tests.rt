//! What both ends wrote and read, once their channel is at an end.
use crate::ends::{ends, opened, reads, shuts, writes};
use hv_sock::finish;
use ring_seat::Settled;
use std::alloc::AllocGlobal;
use std::process::Abort;

// The packets of 01 02 03, of 04, and of the end of a direction, by Linux's `struct vmpipe_proto_header`: in-band data of id 0, the type 1 and the number of
// bytes, and the bytes.
const THREE: &[u64] = &[0x4_0002_0006, 0, 0x3_0000_0001, 0x0003_0201];

const ONE: &[u64] = &[0x4_0002_0006, 0, 0x1_0000_0001, 4];

const END: &[u64] = &[0x3_0002_0006, 0, 1];

// What both ends of a socket sent and got that wrote 01 02 03 and 04.
fn settled(rt: &(impl Abort + AllocGlobal)) -> Settled {
    let (mut guest, mut host) = opened(rt);
    let sent = writes(&mut guest, &[1, 2, 3]);
    let shut = shuts(&mut guest);
    let got = reads(&mut host, &[1, 2, 3]);
    let ended = ends(&mut host);
    let back = writes(&mut host, &[4]);
    let shut_back = shuts(&mut host);
    assert!(rt; sent && shut && got && ended && back && shut_back);
    finish(guest, host)
}

#[test]
fn lists_of_a_channel_at_an_end(rt: HostRuntime) {
    let settled = settled(&rt);
    assert!(rt; settled.guest_sent().len() == 2 && settled.host_got().len() == 2);
    assert!(rt; settled.host_sent().len() == 2 && settled.guest_got().len() == 0);
    assert!(rt;
        settled.guest_sent().get(0) == Some(THREE) && settled.guest_sent().get(1) == Some(END)
    );
    assert!(rt; settled.host_got().get(0) == Some(THREE) && settled.host_got().get(1) == Some(END));
    assert!(rt; settled.host_sent().get(0) == Some(ONE) && settled.host_sent().get(1) == Some(END));
    drop(settled);
}
