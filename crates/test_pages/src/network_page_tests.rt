//! Lends of a network's pages, by turns over one memory: the guest's by an RNDIS packet, the host's by a packet with a range of the receive buffer.
use crate::check::check;
use crate::lends::{sends, stores, takes};
use ring_core::{End, Room, Seatlike, Side, SoloMem};
use std::alloc::AllocGlobal;
use std::process::Abort;

// The first of the host's pages.
const HOSTS: u32 = 64;

// An end of a channel of one page a ring, and the 128 data pages of a network.
fn end(rt: &(impl Abort + AllocGlobal), side: Side) -> End<SoloMem> {
    let solo = SoloMem::make(rt.alloc(), 4096, 128).expect(rt, "memory");
    let mut e = End::make(rt.alloc(), side, 4096, solo, 128).expect(rt, "memory");
    let room = Room {
        packets: 8,
        words: 4096,
    };
    e.reserve(room, room).expect(rt, "memory");
    e
}

// An RNDIS packet that stands in a section of the send buffer: so many bytes of the guest's page of this number.
fn section(page: u64, bytes: u64) -> [u64; 7] {
    [0x7_0002_0006, 9, 107, bytes << 32 | page, 0, 0, 0]
}

// A packet with one range of the receive buffer: so many bytes of the host's page of this number, from 0.
fn buffer(page: u64, bytes: u64) -> [u64; 4] {
    [0x4_0004_0007, 11, 0x1_0000_cafe, page << 44 | bytes]
}

fn completion(id: u64) -> [u64; 2] {
    [0x2_0002_000b, id]
}

// Whether the channel's memory can go from one end to the other, and does.
fn hands(from: &mut End<SoloMem>, to: &mut End<SoloMem>) -> bool {
    if from.cells() != to.cells() || from.pages() != to.pages() {
        return false;
    }
    from.swap_memory(to);
    true
}

// Whether the packet that an end got last came with these page words.
fn came_with<S: Seatlike>(e: &End<S>, words: &[u64]) -> bool {
    let got = e.got();
    got.lent(got.len().wrapping_sub(1)) == Some(words)
}

// An end stores a word into its page and lends two words of it by this packet; the other one gets both, holds the page, and gives it back.
fn goes_and_returns(
    from: &mut End<SoloMem>,
    to: &mut End<SoloMem>,
    page: u32,
    packet: &[u64],
    id: u64,
) -> bool {
    let out = stores(from, page, 1, id) && sends(from, packet) && !from.owns(page);
    let there = out && hands(from, to) && takes(to) && to.owns(page) && came_with(to, &[0, id]);
    let back = there && sends(to, &completion(id)) && !to.owns(page) && hands(to, from);
    back && takes(from) && from.owns(page)
}

#[test]
fn pages_of_both_buffers_go_out_and_come_back(rt: HostRuntime) {
    let mut g = end(&rt, Side::Guest);
    let mut h = end(&rt, Side::Host);
    check(
        &rt,
        g.owns(63) && !g.owns(HOSTS) && h.owns(HOSTS) && h.owns(127),
    );
    check(&rt, goes_and_returns(&mut g, &mut h, 1, &section(1, 16), 9));
    check(&rt, hands(&mut g, &mut h));
    check(
        &rt,
        goes_and_returns(&mut h, &mut g, 66, &buffer(2, 16), 11),
    );
    drop(g);
    drop(h);
}

// Neither end can lend a page of the other one's buffer.
#[test]
fn an_end_lends_its_own_buffer_alone(rt: HostRuntime) {
    let mut g = end(&rt, Side::Guest);
    let mut h = end(&rt, Side::Host);
    check(&rt, !sends(&mut g, &buffer(2, 16)));
    check(
        &rt,
        hands(&mut g, &mut h) && !sends(&mut h, &section(1, 16)),
    );
    drop(g);
    drop(h);
}
