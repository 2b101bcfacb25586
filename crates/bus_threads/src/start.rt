//! Workers in threads of a scope. A worker whose thread was refused comes back.
ghost use Rattle.worker_pair.specs.Workers.{IsLive};
ghost use Rattle.bus_threads.specs.Starting.{Comes, IsStarted};

use io_edge::Gate;
use std::snapshot::Snapshot;
use std::sync::Wait;
use std::sync::atomic::{AtomicBool, Ordering};
use std::thread::{Promise, PromisedHandle, Scope, Threads};
use worker_pair::{Worker, WorkerDone};

/// What the start of a worker gives: the worker has run, or comes back.
#[derive(Drop)]
pub(crate) enum Start {
    Ran(WorkerDone),
    Back(Worker),
}

/// The thread of a worker keeps this.
#[derive(Drop)]
pub(crate) struct StartPromise {
    worker: Snapshot<Worker>,
}

impl Promise<Start> for StartPromise {
    ghost use Rattle.bus_threads.specs.Starting.{Comes};

    ghost kept_by = { λ p s. Comes p.worker.value s };
}

/// A thread, or what the start gave where none could be made.
#[derive(Drop)]
pub(crate) enum Started {
    Thread(PromisedHandle<Start, StartPromise>),
    Here(Start),
}

// What a thread does: it runs the worker, unless this start was refused. Then the worker comes back.
fn run<R: Wait, G: Gate>(rt: &R, gate: &G, refused: &AtomicBool, worker: Worker) -> Start
    requires { IsLive worker }
    ensures { Comes worker result }
{
    if refused.load(Ordering::SeqCst) {
        return Start::Back(worker);
    }
    Start::Ran(worker.run(rt, gate))
}

/// Starts a worker in a thread. The word is this start's own: it is set only once the start was refused, and the work that is handed back then gives the
/// worker.
pub(crate) fn start_worker<'s, E, R: Threads + Wait + Sync, G: Gate>(
    rt: &'s R,
    gate: &'s G,
    scope: &Scope<'s, E>,
    refused: &'s AtomicBool,
    worker: Worker,
) -> Started
    requires { IsLive worker }
    ensures { IsStarted worker result }
{
    let promise = StartPromise {
        worker: Snapshot::of(&worker),
    };
    match scope.spawn_with(
        promise,
        move ||
            requires { IsLive worker }
        { run(rt, gate, refused, worker) },
    ) {
        Ok(started) => Started::Thread(started),
        Err(back) => {
            refused.store(true, Ordering::SeqCst);
            Started::Here((back.value)())
        }
    }
}
