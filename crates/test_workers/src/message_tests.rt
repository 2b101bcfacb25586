//! Workers of a channel over data pages whose host tells each reply in a message besides the answer: on two threads, and by turns beside a guest's end that is driven by
//! hand.
ghost use Rattle.std.specs.Prelude.{◌≡◌, ◌≤◌, true, false};

use crate::check::check;
use crate::swap::{Swap, SwapSeat};
use crate::swap_tests::{ask_at, asker_of, right, server_of};
use io_edge::NoGate;
use ring_core::{Packets, Room, may_lend, may_take};
use ring_seat::{ChannelMem, GuestEnd, TableSeat};
use std::alloc::AllocGlobal;
use std::process::Abort;
use std::sync::Wait;
use std::thread::{Threads, join};
use worker_port::{Ended, Turn};
use worker_requester::Requester;
use worker_server::Server;

// The first words of a message, of a request and of a completion, of five, six and three words.
const MESSAGE: u64 = 0x5_0004_0007;

const REQUEST: u64 = 0x6_0005_0009;

const COMPLETION: u64 = 0x3_0002_000b;

// More turns than a worker takes before it rests.
const MOST_TURNS: u32 = 1_000;

// The id of a message, if these words are one, of the page that goes with that id.
fn message_id(packet: &[u64]) -> Option<u64> {
    if let [head, id, buffer, part, _] = packet
        && *head == MESSAGE
        && *buffer == 0x1_0000_cafe
        && *part == page_of(*id)
    {
        return Some(*id);
    }
    None
}

// The 16 bytes from the start of the page of this id, as a part of the receive buffer.
fn page_of(id: u64) -> u64 {
    id.wrapping_sub(1)
        .wrapping_mul(0x1000_0000_0000)
        .wrapping_add(16)
}

// The id of the message at this place, if it has the reply to the k-th request in the page of its id.
fn told_at(got: &Packets, i: usize, k: usize) -> Option<u64> {
    let (Some(packet), Some(words)) = (got.get(i), got.lent(i)) else {
        return None;
    };
    let ask = ask_at(k as u64);
    if words != [ask.b, ask.a].as_slice() {
        return None;
    }
    message_id(packet)
}

// How many messages came, each with the reply to its request in turn, in the page of its id; and a bit for each id under which an odd number came.
fn told(got: &Packets) -> (usize, u64) {
    let mut count = 0_usize;
    let mut ids = 0_u64;
    for i in 0..got.len() {
        if let Some(id) = told_at(got, i, count) {
            count = count.wrapping_add(1);
            ids ^= 1_u64.rotate_left((id % 64) as u32);
        }
    }
    (count, ids)
}

// How many of these packets are completions.
fn completions(packets: &Packets) -> usize {
    let mut count = 0_usize;
    for i in 0..packets.len() {
        if let Some(packet) = packets.get(i)
            && packet.first() == Some(&COMPLETION)
        {
            count = count.wrapping_add(1);
        }
    }
    count
}

// How the guest's worker ends, how many of its replies are right, how many messages came right, and how many it acknowledged.
fn ask(rt: &impl Wait, asker: Requester<Swap, TableSeat>) -> (Ended, usize, usize, usize)
    requires { asker.end.state.machine.marked ≡ false }
{
    let done = asker.run(rt, &NoGate);
    (
        done.ended,
        right(done.replies.as_slice()),
        told(done.end.got()).0,
        completions(done.end.sent()),
    )
}

// How the host's worker ends, and how many requests it served.
fn serve(rt: &impl Wait, server: Server<Swap, SwapSeat, TableSeat>) -> (Ended, usize)
    requires { server.end.state.machine.marked ≡ false }
{
    let done = server.run(rt, &NoGate);
    (done.ended, done.serials.len())
}

// How both workers end where the guest asks so many.
fn run<R: Threads + Wait + Abort + AllocGlobal + Sync>(
    rt: &R,
    count: u32,
    window: u32,
    pages: u32,
) -> ((Ended, usize, usize, usize), (Ended, usize))
    requires window { (1 ≤ window) × (window ≤ 64) }
    requires pages { pages ≡ 128 }
{
    let (guest, host) = ChannelMem::make(rt.alloc(), 1, pages).expect(rt, "memory");
    let asker = asker_of(rt, guest, count, window, pages, true);
    let server = server_of(rt, host, pages, count, count, false, true);
    join(
        rt,
        move ||
            requires { asker.end.state.machine.marked ≡ false }
        { ask(rt, asker) },
        move ||
            requires { server.end.state.machine.marked ≡ false }
        { serve(rt, server) },
    )
}

#[test]
fn each_message_comes_in_the_page_of_its_id(rt: HostRuntime) {
    let (guest, host) = run(&rt, 4000, 8, 128);
    check(&rt, guest == (Ended::Marked, 4000, 4000, 4000));
    check(&rt, host == (Ended::PeerMarked, 4000));
}

// Sends a packet with the words of the page that it lends, where that may be done.
fn sends(end: &mut GuestEnd, p: &[u64]) -> bool {
    may_lend(end, p) && end.is_ready() && end.send(p).is_ok()
}

// Asks the i-th request under id 1, in the first page.
fn asks(end: &mut GuestEnd, i: u64) -> bool {
    let ask = ask_at(i);
    let words = [ask.a, 5, 6, ask.b];
    for k in 0..4 {
        if !end.is_ready() || !end.can_store(0, k) {
            return false;
        }
        end.page_store(0, k, words[k as usize]);
    }
    sends(end, &[REQUEST, 1, 0x1_0000_0000, 32, 0, 0])
}

// Acknowledges the message of this id.
fn acknowledges(end: &mut GuestEnd, id: u64) -> bool {
    sends(end, &[COMPLETION, id, 0])
}

// Takes a packet with the page words that came with it, if there is one.
fn takes(end: &mut GuestEnd) -> bool {
    if !end.is_ready() || !may_take(end) || end.take_in().is_err() {
        return false;
    }
    if !end.is_ready() || end.spare_got().words < 512 {
        return false;
    }
    end.load_in();
    if end.is_due() {
        return false;
    }
    end.commit();
    true
}

// Takes a message and an answer, behind which there is nothing.
fn takes_both(end: &mut GuestEnd) -> bool {
    takes(end) && takes(end) && !takes(end)
}

// Turns of the host's worker, until it rests.
fn rests(rt: &impl Wait, server: &mut Server<Swap, SwapSeat, TableSeat>) -> bool
    requires { server.old.end.state.machine.marked ≡ false }
    ensures { result ≡ true → server.new.end.state.machine.marked ≡ false }
{
    for _ in 0..MOST_TURNS {
        match server.turn(rt, &NoGate) {
            Turn::Moved => {}
            Turn::Idle => return true,
            Turn::Ended(_) => return false,
        }
    }
    false
}

// The id of the message that came last, which is the k-th.
fn last_told(end: &GuestEnd, k: usize) -> Option<u64> {
    let got = end.got();
    told_at(got, got.len().wrapping_sub(2), k)
}

// Sixty-four messages are open, one under each id; then one is acknowledged, and another. The channel has all its data pages.
fn lends_again(rt: &(impl Wait + Abort + AllocGlobal), pages: u32)
    requires { pages ≡ 128 }
{
    let (mut guest, host) = ChannelMem::make(rt.alloc(), 1, pages).expect(rt, "memory");
    let room = Room {
        packets: 1_000,
        words: 20_000,
    };
    guest.reserve(room, room).expect(rt, "memory");
    let mut server = server_of(rt, host, pages, 66, 66, false, true);
    for i in 0..64 {
        check(rt, asks(&mut guest, i));
        check(rt, rests(rt, &mut server));
        check(rt, takes_both(&mut guest));
    }
    // A message is open under each id, so the next request isn't served.
    check(rt, told(guest.got()) == (64, u64::MAX));
    check(rt, asks(&mut guest, 64));
    check(rt, rests(rt, &mut server));
    check(rt, !takes(&mut guest));
    // One acknowledgement makes its own page free.
    check(rt, acknowledges(&mut guest, 40));
    check(rt, !acknowledges(&mut guest, 40));
    check(rt, rests(rt, &mut server));
    check(rt, takes_both(&mut guest));
    check(rt, last_told(&guest, 64) == Some(40));
    check(rt, asks(&mut guest, 65));
    check(rt, rests(rt, &mut server));
    check(rt, !takes(&mut guest));
    check(rt, acknowledges(&mut guest, 7));
    check(rt, rests(rt, &mut server));
    check(rt, takes_both(&mut guest));
    check(rt, last_told(&guest, 65) == Some(7));
    drop(guest);
    drop(server);
}

#[test]
fn a_page_is_lent_again_behind_its_acknowledgement(rt: HostRuntime) {
    lends_again(&rt, 128);
}
