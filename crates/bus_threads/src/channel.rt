//! The two workers of a channel, from the start of the first to the end of both.
ghost use Rattle.std.specs.Prelude.{◌≡◌};
ghost use Rattle.worker_pair.specs.Leaving.{Leaves};
ghost use Rattle.worker_pair.specs.Workers.{IsLive};
ghost use Rattle.worker_pair.specs.declared.worker.Worker.{Worker as OneWorker};
ghost use Rattle.bus_threads.specs.Pairs.{IsPaired, RunsPair};
ghost use Rattle.bus_threads.specs.Starting.{Comes, IsStarted};
ghost use Rattle.bus_threads.specs.Beginning.{Begins};

use crate::close::close;
use crate::start::{Start, StartPromise, Started, start_worker};
use crate::{Pair, PairDone};
use io_edge::Gate;
use std::marker::Model;
use std::snapshot::Snapshot;
use std::sync::Wait;
use std::sync::atomic::AtomicBool;
use std::thread::{PromisedHandle, Scope, Threads};
use worker_pair::{Worker, WorkerDone, run_both};

/// A word for each start of a channel, which is set once that start was refused.
#[derive(Drop)]
pub(crate) struct Words {
    host: AtomicBool,
    guest: AtomicBool,
}

impl Words {
    /// No start was refused yet.
    pub(crate) fn unset() -> Words {
        Words {
            host: AtomicBool::new(false),
            guest: AtomicBool::new(false),
        }
    }
}

/// The workers of a channel, once both starts are over.
#[derive(Drop)]
pub(crate) enum Workers {
    /// The host's has a thread, and the guest's was started.
    Threads {
        guest: Started,
        host: PromisedHandle<Start, StartPromise>,
    },
    /// The host's came back, and the guest's was not started.
    Here {
        guest: Worker,
        host: Start,
    },
}

/// A channel whose host's worker was started. A contract sees the pair.
#[derive(Drop)]
pub(crate) struct Hosted {
    whole: Snapshot<Pair>,
    guest: Worker,
    host: Started,
}

impl Model for Hosted {
    ghost use Rattle.std.specs.Prelude.{◌≡◌};
    ghost use Rattle.bus_threads.specs.Pairs.{IsPaired, Pairing};
    ghost use Rattle.bus_threads.specs.Starting.{IsStarted};

    ghost Value = { Pairing };

    ghost view = { λ h. h.whole.value };

    ghost invariant = { λ h. IsPaired h.whole.value × (h.guest ≡ h.whole.value.guest) × IsStarted h.whole.value.host h.host };
}

/// A channel whose starts are over. A contract sees the pair.
#[derive(Drop)]
pub(crate) struct Begun {
    whole: Snapshot<Pair>,
    workers: Workers,
}

impl Model for Begun {
    ghost use Rattle.bus_threads.specs.Pairs.{Pairing};
    ghost use Rattle.bus_threads.specs.Beginning.{Begins};

    ghost Value = { Pairing };

    ghost view = { λ b. b.whole.value };

    ghost invariant = { λ b. Begins b.whole.value b.workers };
}

impl Hosted {
    /// Starts the host's worker of a channel, and keeps the guest's.
    pub(crate) fn start<'s, E, R: Threads + Wait + Sync, G: Gate>(
        rt: &'s R,
        gate: &'s G,
        scope: &Scope<'s, E>,
        words: &'s Words,
        pair: Pair,
    ) -> Hosted
        ensures { result ≡ pair }
    {
        let whole = Snapshot::of(&pair);
        let (guest, host) = pair.into_workers();
        let host = start_worker(rt, gate, scope, &words.host, host);
        Hosted { whole, guest, host }
    }

    /// Starts the guest's worker too, unless the host's came back.
    pub(crate) fn begin<'s, E, R: Threads + Wait + Sync, G: Gate>(
        self,
        rt: &'s R,
        gate: &'s G,
        scope: &Scope<'s, E>,
        words: &'s Words,
    ) -> Begun
        ensures { result ≡ self }
    {
        let Hosted { whole, guest, host } = self;
        let workers = match host {
            Started::Thread(host) => Workers::Threads {
                guest: start_worker(rt, gate, scope, &words.guest, guest),
                host,
            },
            Started::Here(host) => Workers::Here { guest, host },
        };
        Begun { whole, workers }
    }
}

impl Begun {
    /// What the channel comes to. It is called once all starts of the phase are over.
    pub(crate) fn end<R: Threads + Wait, G: Gate>(self, rt: &R, gate: &G) -> PairDone
        ensures { RunsPair self result }
    {
        let Begun { whole, workers } = self;
        let (guest, host) = end_workers(rt, gate, &whole, workers);
        close(&whole, guest, host)
    }
}

// A worker that came back runs here.
fn here<R: Wait, G: Gate>(rt: &R, gate: &G, start: Start) -> WorkerDone
    requires { (w : OneWorker) × IsLive w × Comes w start }
    ensures { (w : OneWorker) → Comes w start → Leaves w result }
{
    match start {
        Start::Ran(done) => done,
        Start::Back(worker) => worker.run(rt, gate),
    }
}

// What a worker leaves: one that has a thread is waited for.
fn left<R: Threads + Wait, G: Gate>(rt: &R, gate: &G, started: Started) -> WorkerDone
    requires { (w : OneWorker) × IsLive w × IsStarted w started }
    ensures { (w : OneWorker) → IsStarted w started → Leaves w result }
{
    match started {
        Started::Thread(handle) => here(rt, gate, handle.join(rt)),
        Started::Here(start) => here(rt, gate, start),
    }
}

// What both leave, where the host's came back: they run by turns here.
fn both_here<R: Wait, G: Gate>(
    rt: &R,
    gate: &G,
    pair: &Snapshot<Pair>,
    guest: Worker,
    start: Start,
) -> (WorkerDone, WorkerDone)
    requires pair { IsPaired pair.now.value }
    requires guest { guest ≡ pair.now.value.guest }
    requires comes { Comes pair.now.value.host start }
    ensures guest { Leaves pair.now.value.guest result.0 }
    ensures host { Leaves pair.now.value.host result.1 }
{
    match start {
        Start::Ran(done) => (guest.run(rt, gate), done),
        Start::Back(host) => run_both(rt, gate, guest, host),
    }
}

// What both workers of a channel leave.
fn end_workers<R: Threads + Wait, G: Gate>(
    rt: &R,
    gate: &G,
    pair: &Snapshot<Pair>,
    workers: Workers,
) -> (WorkerDone, WorkerDone)
    requires { Begins pair.now.value workers }
    ensures pair { IsPaired pair.now.value }
    ensures guest { Leaves pair.now.value.guest result.0 }
    ensures host { Leaves pair.now.value.host result.1 }
{
    match workers {
        Workers::Threads { guest, host } => {
            let guest = left(rt, gate, guest);
            (guest, here(rt, gate, host.join(rt)))
        }
        Workers::Here { guest, host } => both_here(rt, gate, pair, guest, host),
    }
}
