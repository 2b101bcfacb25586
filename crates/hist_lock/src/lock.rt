//! The lock that shares a machine out among seats, and takes it back.
ghost use Rattle.std.specs.Prelude.{◌≡◌, ℕ, ◌+◌, ◌^◌, ◌<◌, List, [], ◌∷◌, ◌++◌, length, sum, slice_get, Some, IfOk};
ghost use Rattle.hist_lock.specs.declared.view.Line.{Line};
ghost use Rattle.hist_lock.specs.declared.view.Stage.TheVariants.{Idle};
ghost use Rattle.hist_lock.specs.Legal.{Leaves};
ghost use Rattle.hist_lock.specs.History.{entries_of};
ghost use Rattle.hist_lock.specs.Calls.{Closes};
ghost use Rattle.hist_lock.specs.Seat.{seats_from, AreNew, AreAll};
ghost use Rattle.hist_lock.specs.Rule.{view};
ghost use Rattle.hist_lock.specs.Plays.{Took, lines_from};
ghost use Rattle.hist_lock.specs.Sitting.{IsAt, terms_of, lock_of, Covers};

use crate::rule::{End, LockSeat, LockShared, LockTable, OneOff, Together};
use crate::turn::SERVING;
use crate::view::{Charter, Kept};
use crate::{Entry, HistSeat, History, Machine};
use atomic_table::{Refused, Table};
use std::alloc::{AllocError, Global};
use std::marker::PhantomData;
use std::snapshot::Snapshot;
use std::sync::Arc;

/// The lock of a machine: `make` and `reopen` give its seats, `close` takes them all.
#[derive(Drop)]
pub struct HistLock<M: Machine> {
    of: PhantomData<M>,
}

/// Takes the slot for good, by the seat that has all others.
fn end<M: Machine>(shared: &LockShared<M>, seat: &mut LockSeat<M>) -> Kept<M>
    requires table { IsAt shared.now.table_id seat.old.table_id }
    requires all { (lines : List (Line M M.Request M.Reply)) × Covers (terms_of M.first shared.now.key) lines × (seat.old.me ≡ (view (terms_of M.first shared.now.key) lines Idle, [])) }
    ensures { let t = terms_of M.first shared.now.key in (since : List (Entry M M.Request M.Reply)) × Took M.after M.reply_to t since result seat.old.me.0.lines }
{
    shared.load::<End>(seat, SERVING);
    shared.exchange(seat, 0, None).unwrap()
}

/// Cuts a seat off for each quota.
fn share_out<M: Machine>(
    alloc: Global,
    table: LockTable<M>,
    mut seat: LockSeat<M>,
    quota: &[u32],
) -> Result<Vec<HistSeat<M>>, AllocError>
    requires few { length quota.now < 2 ^ 32 }
    requires settled { let start = (terms_of M.first table.shared.key).start in M.first start ≡ start }
    requires table { IsAt table.shared.table_id seat.table_id }
    requires sits { seat.me ≡ (view (terms_of M.first table.shared.key) (lines_from 0 quota.now) Idle, []) }
    ensures { IfOk result (λ v. v.items ≡ seats_from (lock_of table.shared.table_id (terms_of M.first table.shared.key)) 0 quota.now) }
{
    let table = Arc::new(alloc, table)?;
    let mut seats = Vec::with_capacity(alloc, quota.len())?;
    for left in quota {
        let number = seats.len() as u32;
        let own = table.shared.split_seat::<OneOff>(&mut seat);
        seats.push_reserved(HistSeat {
            table: Arc::try_clone(&table)?,
            seat: own,
            number,
            left: *left,
        });
    }
    Ok(seats)
}

/// The calls of all seats.
fn total(quota: &[u32]) -> u32
    requires { sum quota.now < 2 ^ 32 }
    ensures { result ≡ sum quota.now }
{
    quota.iter().sum()
}

/// A lock that begins with these entries, with room for all its calls.
fn open<M: Machine>(
    alloc: Global,
    state: M,
    mut entries: Vec<Entry<M>>,
    quota: &[u32],
) -> Result<Vec<HistSeat<M>>, AllocError>
    requires some { 0 < length quota.now }
    requires few { length quota.now < 2 ^ 32 }
    requires fits { length entries.items + sum quota.now < 2 ^ 32 }
    requires leaves { Leaves M.first M.after M.reply_to entries.items state }
    ensures { IfOk result (λ seats. AreNew (M.first state) entries.items quota.now seats.items) }
{
    entries.reserve(total(quota) as usize)?;
    let quotas = quota.to_vec(alloc)?;
    let charter = Charter {
        quotas: Snapshot::of(&quotas),
        state: Snapshot::of(&state),
        past: Snapshot::of(&entries),
    };
    let start = entries.len() as u64;
    let mut slots = Vec::with_capacity(alloc, 1)?;
    slots.push_reserved(Some(Kept { state, entries }));
    match Table::new(alloc, &[start, start], slots, &charter) {
        Ok((table, seat)) => share_out(alloc, table, seat, quota),
        Err(Refused { slots: _ }) => Err(AllocError),
    }
}

impl<M: Machine> HistLock<M> {
    /// Gives a seat for each quota, numbered from 0 on, and reserves the whole history.
    ///
    /// A quota is the number of calls that its seat may make. There is at least one quota.
    pub fn make(alloc: Global, state: M, quota: &[u32]) -> Result<Vec<HistSeat<M>>, AllocError>
        requires first { M.first state ≡ state }
        requires some { 0 < length quota.now }
        requires few { length quota.now < 2 ^ 32 }
        requires fits { sum quota.now < 2 ^ 32 }
        ensures { IfOk result (λ seats. AreNew state [] quota.now seats.items) }
    {
        open(alloc, state, Vec::new(alloc), quota)
    }

    /// Opens a lock again with the state and the history that an earlier one left.
    ///
    /// The new history begins with `past`, so each new entry has a serial at or above its length.
    /// It gives a seat for each quota, numbered from 0 on, and reserves the rest of the history. A
    /// refusal gives neither the state nor the history back. There is at least one quota.
    pub fn reopen(
        alloc: Global,
        state: M,
        past: History<M>,
        quota: &[u32],
    ) -> Result<Vec<HistSeat<M>>, AllocError>
        requires some { 0 < length quota.now }
        requires few { length quota.now < 2 ^ 32 }
        requires fits { length (entries_of past) + sum quota.now < 2 ^ 32 }
        requires leaves { Leaves M.first M.after M.reply_to (entries_of past) state }
        ensures { IfOk result (λ seats. AreNew (M.first state) (entries_of past) quota.now seats.items) }
    {
        let History { entries } = past;
        open(alloc, state, entries, quota)
    }

    /// Ends all seats of a lock, and gives the machine back with its history.
    ///
    /// The seats stand in the order of their numbers. It takes no memory, and gives back that of
    /// the lock.
    pub fn close(mut seats: Vec<HistSeat<M>>) -> (M, History<M>)
        requires { AreAll seats.items }
        ensures closes { Closes M.after M.reply_to seats.items (entries_of result.1) }
        ensures leaves { Leaves M.first M.after M.reply_to (entries_of result.1) result.0 }
        ensures first { (k : ℕ) (s : _) → slice_get seats.items k ≡ Some s → M.first result.0 ≡ s.lock.first }
    {
        let Some(last) = seats.pop() else {
            unreachable!()
        };
        let HistSeat {
            table,
            mut seat,
            number: _,
            left: _,
        } = last;
        while let Some(next) = seats.pop() {
            let HistSeat {
                table: _,
                seat: other,
                number: _,
                left: _,
            } = next;
            table.shared.join_seat::<Together>(&mut seat, other);
        }
        let Kept { state, entries } = end(&table.shared, &mut seat);
        (state, History { entries })
    }
}
