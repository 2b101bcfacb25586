//! A small machine and its calls, from one thread and from several.
ghost use Rattle.std.specs.Prelude.{◌≡◌, ℕ, ◌+◌, ◌^◌, ◌<◌, [], length, sum, slice_index_or, IfOk};
ghost use Rattle.hist_lock.specs.History.{entries_of};
ghost use Rattle.hist_lock.specs.Legal.{Leaves};
ghost use Rattle.hist_lock.specs.Seat.{Seat, IsSame};

use crate::check::check;
use hist_lock::{HistLock, HistSeat, History, Machine};
use std::alloc::{AllocError, Global};
use std::process::Abort;
use std::sync::Wait;
use std::test::Fail;
use std::thread;
use std::thread::Threads;

/// Adds up what it is asked to, round the end of 32 bits. Its setup is the sum that it begins with.
#[derive(Drop)]
struct Adder {
    base: u32,
    sum: u32,
}

impl Machine for Adder {
    ghost use Rattle.std.specs.Prelude.{ℕ, ◌+◌, ◌%◌, ◌^◌, ◌<◌, refl};

    type Request = u32;

    type Reply = u32;

    ghost first = { λ s. record { base = s.base; sum = s.base } };

    ghost after = { λ s q. record { base = s.base; sum = (s.sum + q) % 2 ^ 32 } };

    ghost reply_to = { λ s q. (s.sum + q) % 2 ^ 32 };

    ghost fits = { λ q r. r < 2 ^ 32 };

    ghost keeps_setup = { λ s q. refl };

    fn apply(&mut self, request: &u32) -> u32 {
        self.sum = self.sum.wrapping_add(*request);
        self.sum
    }

    fn copy(reply: &u32) -> u32 {
        *reply
    }
}

/// Asks the adder, and wants this serial, this sum, and so many calls left.
fn asked(
    rt: &(impl Abort + Wait),
    seat: &mut HistSeat<Adder>,
    request: u32,
    want: (u32, u32, u32),
) {
    check(rt, seat.left() > 0);
    let receipt = seat.with(rt, request);
    check(rt, (receipt.serial, receipt.reply, seat.left()) == want);
}

/// Makes all calls that are left.
fn use_up<M: Machine, R: Wait>(rt: &R, seat: &mut HistSeat<M>, request: M::Request)
where
    M::Request: Copy,
    ensures { IsSame seat.old seat.new }
{
    for _ in 0..seat.left() {
        let _receipt = seat.with(rt, request);
    }
}

/// Makes all calls of these seats, each seat in a thread of its own.
fn use_all_up<M: Machine + Send, R: Threads + Wait + Sync>(
    rt: &R,
    seats: &mut [HistSeat<M>],
    request: M::Request,
)
where
    M::Request: Copy + Send + Sync,
    M::Reply: Send,
    ensures { (k : ℕ) (d : Seat _ _ _) → k < length seats.old → IsSame (slice_index_or seats.old k d) (slice_index_or seats.new k d) }
{
    if seats.is_empty() {
        return;
    }
    let threads = seats.len();
    thread::for_each_mut(rt, seats, threads, &|_, seat| use_up(rt, seat, request));
}

/// A history goes on with all calls of a seat for each quota.
fn run_on<M: Machine + Send, R: Threads + Wait + Sync>(
    rt: &R,
    alloc: Global,
    state: M,
    past: History<M>,
    quota: &[u32],
    request: M::Request,
) -> Result<(M, History<M>), AllocError>
where
    M::Request: Copy + Send + Sync,
    M::Reply: Send,
    requires some { 0 < length quota.now }
    requires few { length quota.now < 2 ^ 32 }
    requires fits { length (entries_of past) + sum quota.now < 2 ^ 32 }
    requires leaves { Leaves M.first M.after M.reply_to (entries_of past) state }
    ensures { IfOk result (λ r. Leaves M.first M.after M.reply_to (entries_of r.1) r.0) }
{
    let mut seats = HistLock::reopen(alloc, state, past, quota)?;
    use_all_up(rt, seats.as_mut_slice(), request);
    Ok(HistLock::close(seats))
}

/// A machine that has served nothing, with its empty history.
fn fresh<M: Machine>(alloc: Global, machine: M) -> Result<(M, History<M>), AllocError>
    requires { M.first machine ≡ machine }
    ensures leaves { IfOk result (λ r. Leaves M.first M.after M.reply_to (entries_of r.1) r.0) }
{
    let seats = HistLock::make(alloc, machine, &[0, 0])?;
    Ok(HistLock::close(seats))
}

/// A machine's history after so many phases, of two calls of the first seat and one of the second.
fn phases<M: Machine + Send, R: Abort + Threads + Wait + Sync>(
    rt: &R,
    alloc: Global,
    machine: M,
    count: u32,
    request: M::Request,
) -> Result<(M, History<M>), AllocError>
where
    M::Request: Copy + Send + Sync,
    M::Reply: Send,
    requires { M.first machine ≡ machine }
    ensures { IfOk result (λ r. Leaves M.first M.after M.reply_to (entries_of r.1) r.0) }
{
    let (mut state, mut history) = fresh(alloc, machine)?;
    for _ in 0..count {
        check(rt, history.entries().len() < 1_000_000);
        let (after, grown) = run_on(rt, alloc, state, history, &[2, 1], request)?;
        state = after;
        history = grown;
    }
    Ok((state, history))
}

/// The seat, the request and the reply of an entry.
fn entry(history: &History<Adder>, at: usize) -> Option<(u32, u32, u32)> {
    match history.entries().get(at) {
        Some(e) => Some((e.seat, e.request, e.reply)),
        None => None,
    }
}

/// How many of these entries a seat made.
fn made_by(history: &History<Adder>, from: usize, to: usize, seat: u32) -> usize {
    history
        .entries()
        .iter()
        .take(to)
        .skip(from)
        .filter(|e| e.seat == seat)
        .count()
}

#[test]
fn one_seat(rt: HostRuntime) -> Result<(), Fail> {
    let mut seats = HistLock::make(rt.alloc(), Adder { base: 7, sum: 7 }, &[3])?;
    check(&rt, seats.len() == 1);
    asked(&rt, &mut seats[0], 1, (0, 8, 2));
    asked(&rt, &mut seats[0], 4_294_967_295, (1, 7, 1));
    asked(&rt, &mut seats[0], 0, (2, 7, 0));
    drop(seats);
    Ok(())
}

#[test]
fn seats_in_turn(rt: HostRuntime) -> Result<(), Fail> {
    let mut seats = HistLock::make(rt.alloc(), Adder { base: 7, sum: 7 }, &[1, 0, 2])?;
    check(&rt, seats.len() == 3);
    asked(&rt, &mut seats[2], 1, (0, 8, 1));
    asked(&rt, &mut seats[0], 2, (1, 10, 0));
    asked(&rt, &mut seats[2], 3, (2, 13, 0));
    drop(seats);
    Ok(())
}

#[test]
fn no_calls(rt: HostRuntime) -> Result<(), Fail> {
    let (state, history) = fresh(rt.alloc(), Adder { base: 1, sum: 1 })?;
    check(&rt, (state.base, state.sum) == (1, 1));
    check(&rt, history.entries().len() == 0);
    drop(history);
    Ok(())
}

/// Behind three entries and the sum 14 each of two seats made 5,000 calls that add 10.
fn went_on(rt: &impl Abort, history: &History<Adder>) {
    check(rt, history.entries().len() == 10_003);
    check(rt, made_by(history, 3, 10_003, 0) == 5000);
    check(rt, made_by(history, 3, 10_003, 1) == 5000);
    let mut sum = 14u32;
    for e in history.entries().iter().skip(3) {
        sum = sum.wrapping_add(10);
        check(rt, (e.request, e.reply) == (10, sum));
    }
}

// Two threads, 5,000 calls each, behind the history of an earlier lock.
#[test]
fn two_threads_behind_a_history(rt: HostRuntime) {
    let (state, history) = phases(&rt, rt.alloc(), Adder { base: 5, sum: 5 }, 1, 3).expect(
        &rt, "memory",
    );
    check(&rt, (state.sum, history.entries().len()) == (14, 3));
    let (first, second, third) = (entry(&history, 0), entry(&history, 1), entry(&history, 2));
    let (state, history) = run_on(&rt, rt.alloc(), state, history, &[5000, 5000], 10).expect(
        &rt, "memory",
    );
    check(&rt, (state.base, state.sum) == (5, 100_014));
    check(
        &rt,
        entry(&history, 0) == first && entry(&history, 1) == second && entry(&history, 2) == third,
    );
    went_on(&rt, &history);
    drop(history);
}

// Each phase opens the lock again with what the phase before left.
#[test]
fn a_hundred_phases(rt: HostRuntime) -> Result<(), Fail> {
    let (state, history) = phases(&rt, rt.alloc(), Adder { base: 5, sum: 5 }, 100, 3)?;
    check(&rt, (state.base, state.sum) == (5, 905));
    check(&rt, history.entries().len() == 300);
    for phase in 0..100usize {
        check(&rt, made_by(&history, 3 * phase, 3 * phase + 3, 0) == 2);
        check(&rt, made_by(&history, 3 * phase, 3 * phase + 3, 1) == 1);
    }
    drop(history);
    Ok(())
}
