//! Both workers of one channel, on two threads.
ghost use Rattle.std.specs.Prelude.{◌≡◌, ◌≤◌, false};
ghost use Rattle.io_edge.specs.declared.side.Side.TheVariants.{Guest as GuestSide, Host as HostSide};
ghost use Rattle.ring_seat.specs.Seats.{new_end};

use crate::check::check;
use crate::echo::{Echo, EchoSeat};
use io_edge::{NoGate, Side};
use ring_seat::{ChannelMem, GuestEnd, HostEnd, TableSeat};
use std::alloc::AllocGlobal;
use std::process::Abort;
use std::sync::Wait;
use std::thread::{Threads, join};
use worker_port::Ended;
use worker_requester::Requester;
use worker_server::Server;

// The asks from 0, so many. For the first one no message comes back.
fn asks(rt: &(impl Abort + AllocGlobal), n: u32) -> Echo {
    let mut asks = Vec::new(rt.alloc());
    for i in 0..n {
        asks.push(u64::from(i)).expect(rt, "memory");
    }
    check(rt, asks.len() <= 1000);
    Echo { asks, starts: 0 }
}

// A guest's worker that asks so many, with at most `window` open.
fn asker_of(
    rt: &(impl Abort + AllocGlobal),
    end: GuestEnd,
    count: u32,
    window: u32,
) -> Requester<Echo, TableSeat>
    requires window { (1 ≤ window) × (window ≤ 64) }
    requires fresh { end.state ≡ new_end 512 GuestSide }
    ensures { result.end.state.machine.marked ≡ false }
{
    let asks = asks(rt, count);
    Requester::make(rt.alloc(), asks, end, Side::Guest, 1, window).expect(rt, "memory")
}

// A host's worker that serves so many of those that come. One that stops holds the last answer.
fn server_of(
    rt: &(impl Abort + AllocGlobal),
    end: HostEnd,
    come: u32,
    serve: u32,
    stops: bool,
) -> Server<Echo, EchoSeat, TableSeat>
    requires fresh { end.state ≡ new_end 512 HostSide }
    ensures { result.end.state.machine.marked ≡ false }
{
    let alloc = rt.alloc();
    let protocol = asks(rt, 0);
    let seat = EchoSeat::make(alloc, serve).expect(rt, "memory");
    Server::make(
        alloc,
        protocol,
        end,
        seat,
        Side::Host,
        1,
        0,
        serve,
        stops,
        stops,
        come,
    )
    .expect(rt, "memory")
}

// How many of the packets that an end sent acknowledge a message.
fn acknowledged(end: &GuestEnd) -> usize {
    let sent = end.sent();
    let mut count = 0_usize;
    for i in 0..sent.len() {
        if let Some(packet) = sent.get(i)
            && packet.first() == Some(&12885032971)
        {
            count = count.wrapping_add(1);
        }
    }
    count
}

// How the guest's worker ends, how many replies it has, and how many messages it acknowledged.
fn ask(rt: &impl Wait, asker: Requester<Echo, TableSeat>) -> (Ended, usize, usize)
    requires { asker.end.state.machine.marked ≡ false }
{
    let done = asker.run(rt, &NoGate);
    (done.ended, done.replies.len(), acknowledged(&done.end))
}

// How the host's worker ends, and how many requests it served.
fn serve(rt: &impl Wait, server: Server<Echo, EchoSeat, TableSeat>) -> (Ended, usize)
    requires { server.end.state.machine.marked ≡ false }
{
    let done = server.run(rt, &NoGate);
    (done.ended, done.serials.len())
}

// How both workers end where the guest asks so many.
fn run<R: Threads + Wait + Abort + AllocGlobal + Sync>(
    rt: &R,
    count: u32,
    window: u32,
    serves: u32,
    stops: bool,
) -> ((Ended, usize, usize), (Ended, usize))
    requires { (1 ≤ window) × (window ≤ 64) }
{
    let (guest, host) = ChannelMem::make(rt.alloc(), 1, 0).expect(rt, "memory");
    let asker = asker_of(rt, guest, count, window);
    let server = server_of(rt, host, count, serves, stops);
    join(
        rt,
        move ||
            requires { asker.end.state.machine.marked ≡ false }
        { ask(rt, asker) },
        move ||
            requires { server.end.state.machine.marked ≡ false }
        { serve(rt, server) },
    )
}

#[test]
fn all_is_asked_and_served(rt: HostRuntime) {
    let (guest, host) = run(&rt, 300, 8, 300, false);
    check(&rt, guest == (Ended::Marked, 300, 299));
    check(&rt, host == (Ended::PeerMarked, 300));
}

#[test]
fn a_stop_holds_the_last_answer(rt: HostRuntime) {
    let (guest, host) = run(&rt, 40, 4, 7, true);
    // The message of each answer that came is acknowledged, also behind the host's mark. The first answer has none.
    check(&rt, guest == (Ended::PeerMarked, 6, 5));
    check(&rt, host == (Ended::Marked, 7));
}
