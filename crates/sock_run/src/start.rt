//! The host's worker in a thread of a scope. Where its thread was refused it comes back.
ghost use Rattle.sock_run.specs.Pairs.{Comes, IsStarted};
ghost use Rattle.sock_workers.specs.Workers.{IsLive};

use sock_workers::{HostDone, SockHost};
use std::snapshot::Snapshot;
use std::sync::Wait;
use std::sync::atomic::{AtomicBool, Ordering};
use std::thread::{Promise, PromisedHandle, Scope, Threads};

/// What the start of the worker gives: it has run, or comes back.
#[derive(Drop)]
pub(crate) enum Start {
    Ran(HostDone),
    Back(SockHost),
}

/// The thread of the worker keeps this.
#[derive(Drop)]
pub(crate) struct StartPromise {
    host: Snapshot<SockHost>,
}

impl Promise<Start> for StartPromise {
    ghost use Rattle.sock_run.specs.Pairs.{Comes};

    ghost kept_by = { λ p s. Comes p.host.value s };
}

/// A thread, or what the start gave where none could be made.
#[derive(Drop)]
pub(crate) enum Started {
    Thread(PromisedHandle<Start, StartPromise>),
    Here(Start),
}

// What a thread does: it runs the worker, unless this start was refused. Then the worker comes back.
fn run<R: Wait>(rt: &R, refused: &AtomicBool, host: SockHost) -> Start
    requires { IsLive host.port }
    ensures { Comes host result }
{
    if refused.load(Ordering::SeqCst) {
        return Start::Back(host);
    }
    Start::Ran(host.run(rt))
}

/// Starts the worker in a thread. The word is this start's own: it is set only once the start was refused, and the work that is handed back then gives the
/// worker.
pub(crate) fn start_host<'s, E, R: Threads + Wait + Sync>(
    rt: &'s R,
    scope: &Scope<'s, E>,
    refused: &'s AtomicBool,
    host: SockHost,
) -> Started
    requires { IsLive host.port }
    ensures { IsStarted host result }
{
    let promise = StartPromise {
        host: Snapshot::of(&host),
    };
    match scope.spawn_with(
        promise,
        move ||
            requires { IsLive host.port }
        { run(rt, refused, host) },
    ) {
        Ok(started) => Started::Thread(started),
        Err(back) => {
            refused.store(true, Ordering::SeqCst);
            Started::Here((back.value)())
        }
    }
}
