//! Both workers of one channel over data pages, on two threads.
ghost use Rattle.std.specs.Prelude.{◌≡◌, ◌≤◌, true, false};
ghost use Rattle.io_edge.specs.declared.side.Side.TheVariants.{Guest as GuestSide, Host as HostSide};
ghost use Rattle.ring_seat.specs.Whole.{new_paged};

use crate::check::check;
use crate::swap::{Swap, SwapSeat, Two};
use io_edge::{NoGate, Side};
use ring_seat::{ChannelMem, GuestEnd, HostEnd, TableSeat};
use std::alloc::AllocGlobal;
use std::process::Abort;
use std::sync::Wait;
use std::thread::{Threads, join};
use worker_port::Ended;
use worker_requester::Requester;
use worker_server::Server;

// The i-th ask.
pub(crate) fn ask_at(i: u64) -> Two {
    Two {
        a: i.wrapping_mul(3).wrapping_add(1),
        b: !i,
    }
}

// So many asks, of a host that tells each reply in a message, or not.
fn asks(rt: &(impl Abort + AllocGlobal), n: u32, tells: bool) -> Swap
    ensures { result.tells ≡ tells }
{
    let mut asks = Vec::new(rt.alloc());
    for i in 0..n {
        asks.push(ask_at(u64::from(i))).expect(rt, "memory");
    }
    check(rt, asks.len() <= 10000);
    Swap {
        asks,
        starts: 0,
        tells,
    }
}

// A guest's worker that asks so many, with at most `window` open, over so many data pages.
pub(crate) fn asker_of(
    rt: &(impl Abort + AllocGlobal),
    end: GuestEnd,
    count: u32,
    window: u32,
    pages: u32,
    tells: bool,
) -> Requester<Swap, TableSeat>
    requires window { (1 ≤ window) × (window ≤ 64) }
    requires pages { window ≤ pages }
    requires fresh { end.state ≡ new_paged 512 pages GuestSide }
    ensures { result.end.state.machine.marked ≡ false }
{
    let asks = asks(rt, count, tells);
    Requester::make(rt.alloc(), asks, end, Side::Guest, 1, window).expect(rt, "memory")
}

// A host's worker that serves so many of those that come, over so many data pages. One that stops holds the last answer.
pub(crate) fn server_of(
    rt: &(impl Abort + AllocGlobal),
    end: HostEnd,
    pages: u32,
    come: u32,
    serve: u32,
    stops: bool,
    tells: bool,
) -> Server<Swap, SwapSeat, TableSeat>
    requires pages { 1 ≤ pages }
    requires enough { tells ≡ true → 128 ≤ pages }
    requires fresh { end.state ≡ new_paged 512 pages HostSide }
    ensures { result.end.state.machine.marked ≡ false }
{
    let alloc = rt.alloc();
    let protocol = asks(rt, 0, tells);
    let seat = SwapSeat::make(alloc, serve).expect(rt, "memory");
    Server::make(
        alloc,
        protocol,
        end,
        seat,
        Side::Host,
        1,
        0,
        serve,
        stops,
        stops,
        come,
    )
    .expect(rt, "memory")
}

// How many of these replies have the two numbers of their ask in turn.
pub(crate) fn right(replies: &[Two]) -> usize {
    let mut count = 0_usize;
    for i in 0..replies.len() {
        let ask = ask_at(i as u64);
        if replies[i].a == ask.b && replies[i].b == ask.a {
            count = count.wrapping_add(1);
        }
    }
    count
}

// How the guest's worker ends, how many replies it has, and how many of these are right.
fn ask(rt: &impl Wait, asker: Requester<Swap, TableSeat>) -> (Ended, usize, usize)
    requires { asker.end.state.machine.marked ≡ false }
{
    let done = asker.run(rt, &NoGate);
    (
        done.ended,
        done.replies.len(),
        right(done.replies.as_slice()),
    )
}

// How the host's worker ends, and how many requests it served.
fn serve(rt: &impl Wait, server: Server<Swap, SwapSeat, TableSeat>) -> (Ended, usize)
    requires { server.end.state.machine.marked ≡ false }
{
    let done = server.run(rt, &NoGate);
    (done.ended, done.serials.len())
}

// How both workers end where the guest asks so many.
fn run<R: Threads + Wait + Abort + AllocGlobal + Sync>(
    rt: &R,
    count: u32,
    window: u32,
    serves: u32,
    stops: bool,
) -> ((Ended, usize, usize), (Ended, usize))
    requires { (1 ≤ window) × (window ≤ 64) }
{
    let (guest, host) = ChannelMem::make(rt.alloc(), 1, window).expect(rt, "memory");
    let asker = asker_of(rt, guest, count, window, window, false);
    let server = server_of(rt, host, window, count, serves, stops, false);
    join(
        rt,
        move ||
            requires { asker.end.state.machine.marked ≡ false }
        { ask(rt, asker) },
        move ||
            requires { server.end.state.machine.marked ≡ false }
        { serve(rt, server) },
    )
}

#[test]
fn each_reply_comes_in_the_page_of_its_request(rt: HostRuntime) {
    let (guest, host) = run(&rt, 4000, 4, 4000, false);
    check(&rt, guest == (Ended::Marked, 4000, 4000));
    check(&rt, host == (Ended::PeerMarked, 4000));
}

#[test]
fn one_page_goes_there_and_back(rt: HostRuntime) {
    let (guest, host) = run(&rt, 2000, 1, 2000, false);
    check(&rt, guest == (Ended::Marked, 2000, 2000));
    check(&rt, host == (Ended::PeerMarked, 2000));
}

#[test]
fn all_pages_are_out_at_once(rt: HostRuntime) {
    let (guest, host) = run(&rt, 4000, 64, 4000, false);
    check(&rt, guest == (Ended::Marked, 4000, 4000));
    check(&rt, host == (Ended::PeerMarked, 4000));
}

#[test]
fn a_stop_holds_the_last_answer_and_its_page(rt: HostRuntime) {
    let (guest, host) = run(&rt, 400, 4, 70, true);
    check(&rt, guest == (Ended::PeerMarked, 69, 69));
    check(&rt, host == (Ended::Marked, 70));
}
