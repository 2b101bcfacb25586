//! The run of a socket.
ghost use Rattle.std.specs.Prelude.{◌≡◌, IfOk};
ghost use Rattle.sock_run.specs.Pairs.{ArePair, Comes, IsStarted};
ghost use Rattle.sock_run.specs.Runs.{IsSockRun};
ghost use Rattle.sock_workers.specs.Workers.{GuestLeaves, Host, HostLeaves, IsLive};

use crate::close::close;
use crate::pair::SockPair;
use crate::start::{Start, Started, start_host};
use ring_seat::Settled;
use sock_workers::{GuestDone, HostDone, SockGuest, run_both};
use std::alloc::{AllocError, Global};
use std::snapshot::Snapshot;
use std::sync::Wait;
use std::sync::atomic::AtomicBool;
use std::thread;
use std::thread::{Scope, Threads};

/// What a run of a socket left.
#[derive(Drop)]
pub struct SockRun {
    /// What both ends sent and got.
    pub settled: Settled,
    /// What the guest read.
    pub output: Vec<u8>,
}

// What the host leaves that came back from its thread, beside a guest that has ended.
fn here<R: Wait>(rt: &R, start: Start) -> HostDone
    requires { (w : Host) × IsLive w.port × Comes w start }
    ensures { (w : Host) → Comes w start → HostLeaves w result.ended result.end }
{
    match start {
        Start::Ran(done) => done,
        Start::Back(host) => host.run(rt),
    }
}

// What both leave, where the host came back: they run by turns here.
fn both_here<R: Wait>(
    rt: &R,
    pair: &Snapshot<SockPair>,
    guest: SockGuest,
    start: Start,
) -> (GuestDone, HostDone)
    requires guest { (guest ≡ pair.now.value.guest) × IsLive guest.port }
    requires host { IsLive pair.now.value.host.port × Comes pair.now.value.host start }
    ensures guest { GuestLeaves pair.now.value.guest result.0.ended result.0.output.items result.0.end }
    ensures host { HostLeaves pair.now.value.host result.1.ended result.1.end }
{
    // For the proof: what a value keeps is known where the value is read.
    let _pair = pair;
    match start {
        Start::Ran(done) => (guest.run(rt), done),
        Start::Back(host) => run_both(rt, guest, host),
    }
}

// What both workers leave, once the host was started.
fn end_both<R: Threads + Wait>(
    rt: &R,
    pair: &Snapshot<SockPair>,
    guest: SockGuest,
    host: Started,
) -> (GuestDone, HostDone)
    requires pair { ArePair pair.now.value }
    requires guest { guest ≡ pair.now.value.guest }
    requires host { IsStarted pair.now.value.host host }
    ensures guest { GuestLeaves pair.now.value.guest result.0.ended result.0.output.items result.0.end }
    ensures host { HostLeaves pair.now.value.host result.1.ended result.1.end }
{
    match host {
        Started::Thread(handle) => {
            let guest = guest.run(rt);
            (guest, here(rt, handle.join(rt)))
        }
        Started::Here(start) => both_here(rt, pair, guest, start),
    }
}

// Runs both workers, the host's in a thread of this scope where one can be made.
fn run_pair<'s, E, R: Threads + Wait + Sync>(
    rt: &'s R,
    scope: &Scope<'s, E>,
    refused: &'s AtomicBool,
    pair: SockPair,
) -> SockRun
    ensures { IsSockRun pair.guest.input result.output.items result.settled }
{
    let whole = Snapshot::of(&pair);
    let (guest, host) = pair.into_workers();
    let host = start_host(rt, scope, refused, host);
    let (guest, host) = end_both(rt, &whole, guest, host);
    close(&whole, guest, host)
}

/// Runs a socket over a channel of its own: the guest sends these bytes and keeps what comes back, and the host sends back what it reads. The host has a thread
/// where one can be made, and else both run by turns. It takes all its memory before, and the want of memory is the one thing that refuses it.
pub fn run_sock<R: Threads + Wait + Sync>(
    rt: &R,
    alloc: Global,
    input: Vec<u8>,
) -> Result<SockRun, AllocError>
    ensures { IfOk result (λ r. IsSockRun input.items r.output.items r.settled) }
{
    let pair = SockPair::open(alloc, input)?;
    let word = AtomicBool::new(false);
    let refused = &word;
    Ok(thread::scope(
        thread::scope_env(),
        rt,
        |scope| run_pair(rt, scope, refused, pair),
    ))
}
