//! The channels of a phase.
ghost use Rattle.std.specs.Prelude.{◌≡◌, ◌≤◌, [], length, vec_len, vec_capacity};
ghost use Rattle.arrayvec.specs.ArrayVec.{array_vec_len};
ghost use Rattle.bus_threads.specs.Pairs.{EachRuns, present};

use crate::channel::{Begun, Hosted, Words};
use crate::{Pair, PairDone};
use arrayvec::ArrayVec;
use io_edge::Gate;
use std::sync::Wait;
use std::thread::{Scope, Threads};
use std::{array, mem, thread};

// Starts the host's worker of each channel, in order.
fn start_hosts<'s, E, R: Threads + Wait + Sync, G: Gate>(
    rt: &'s R,
    gate: &'s G,
    scope: &Scope<'s, E>,
    words: &'s [Words; 16],
    mut pairs: Vec<Pair>,
    hosted: &mut ArrayVec<Option<Hosted>, 16>,
)
    requires few { length pairs.items ≤ 16 }
    requires empty { hosted.old.items ≡ [] }
    ensures all { present hosted.new.items ≡ pairs.items }
    ensures count { array_vec_len hosted.new ≡ length pairs.items }
{
    let Some(pair) = pairs.pop() else {
        drop(pairs);
        return;
    };
    let place = pairs.len();
    start_hosts(rt, gate, scope, words, pairs, hosted);
    hosted.push(Some(Hosted::start(rt, gate, scope, &words[place], pair)));
}

// Starts the guest's worker of a channel, at a place that has one.
fn start_guest_at<'s, E, R: Threads + Wait + Sync, G: Gate>(
    rt: &'s R,
    gate: &'s G,
    scope: &Scope<'s, E>,
    words: &'s Words,
    hosted: Option<Hosted>,
) -> Option<Begun>
    ensures { result ≡ hosted }
{
    match hosted {
        None => None,
        Some(hosted) => Some(hosted.begin(rt, gate, scope, words)),
    }
}

// Starts the guest's worker of each channel, in order.
fn start_guests<'s, E, R: Threads + Wait + Sync, G: Gate>(
    rt: &'s R,
    gate: &'s G,
    scope: &Scope<'s, E>,
    words: &'s [Words; 16],
    hosted: &mut ArrayVec<Option<Hosted>, 16>,
    begun: &mut ArrayVec<Option<Begun>, 16>,
)
    requires few { array_vec_len hosted.old ≤ 16 }
    requires empty { begun.old.items ≡ [] }
    ensures { begun.new.items ≡ hosted.old.items }
{
    let Some(one) = hosted.pop() else {
        return;
    };
    let place = hosted.len();
    start_guests(rt, gate, scope, words, hosted, begun);
    begun.push(start_guest_at(rt, gate, scope, &words[place], one));
}

// Ends the channels in order.
fn end_all<R: Threads + Wait, G: Gate>(
    rt: &R,
    gate: &G,
    begun: &mut ArrayVec<Option<Begun>, 16>,
    done: Vec<PairDone>,
) -> Vec<PairDone>
    requires empty { done.items ≡ [] }
    requires room { array_vec_len begun.old ≤ vec_capacity done }
    ensures each { EachRuns (present begun.old.items) result.items }
    ensures count { vec_len result ≤ array_vec_len begun.old }
    ensures room { vec_capacity result ≡ vec_capacity done }
{
    let Some(one) = begun.pop() else {
        return done;
    };
    let mut before = end_all(rt, gate, begun, done);
    match one {
        None => before,
        Some(begun) => {
            before.push_reserved(begun.end(rt, gate));
            before
        }
    }
}

// Starts the hosts' workers of all channels, then the guests', and ends the channels in order.
fn run_all<'s, E, R: Threads + Wait + Sync, G: Gate>(
    rt: &'s R,
    gate: &'s G,
    scope: &Scope<'s, E>,
    words: &'s [Words; 16],
    pairs: Vec<Pair>,
    done: Vec<PairDone>,
) -> Vec<PairDone>
    requires few { length pairs.items ≤ 16 }
    requires empty { done.items ≡ [] }
    requires room { length pairs.items ≤ vec_capacity done }
    ensures { EachRuns pairs.items result.items }
{
    let mut hosted = ArrayVec::new();
    start_hosts(rt, gate, scope, words, pairs, &mut hosted);
    let mut begun = ArrayVec::new();
    start_guests(rt, gate, scope, words, &mut hosted, &mut begun);
    drop(hosted);
    let done = end_all(rt, gate, &mut begun, done);
    drop(begun);
    done
}

// Runs all channels in a scope of threads.
fn run_on_threads<R: Threads + Wait + Sync, G: Gate>(
    rt: &R,
    gate: &G,
    pairs: Vec<Pair>,
    done: Vec<PairDone>,
) -> Vec<PairDone>
    requires few { length pairs.items ≤ 16 }
    requires empty { done.items ≡ [] }
    requires room { length pairs.items ≤ vec_capacity done }
    ensures { EachRuns pairs.items result.items }
{
    let all = array::from_fn(|_| Words::unset());
    let words = &all;
    thread::scope(
        thread::scope_env(),
        rt,
        |scope|
            requires few { length pairs.items ≤ 16 }
            requires empty { done.items ≡ [] }
            requires room { length pairs.items ≤ vec_capacity done }
        { run_all(rt, gate, scope, words, pairs, done) },
    )
}

/// Runs the channels of a phase, each worker in a thread of its own where one can be made, and gives what they come to, in order. It takes no memory.
pub fn run_phase<R: Threads + Wait + Sync, G: Gate>(
    rt: &R,
    pairs: Vec<Pair>,
    done: &mut Vec<PairDone>,
    gate: &G,
)
    requires few { length pairs.items ≤ 16 }
    requires empty { done.old.items ≡ [] }
    requires room { length pairs.items ≤ vec_capacity done.old }
    ensures { EachRuns pairs.items done.new.items }
{
    let alloc = *done.allocator();
    let room = mem::replace(done, Vec::new(alloc));
    *done = run_on_threads(rt, gate, pairs, room);
}
