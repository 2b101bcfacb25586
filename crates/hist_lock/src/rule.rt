//! The rule of the lock's table, and the names of its steps.
ghost use Rattle.hist_lock.specs.Rule.{Rule};
ghost use Rattle.hist_lock.specs.Sitting.{terms_of, opened};
ghost use Rattle.hist_lock.specs.Plays.{drawn, looked, took, gave, served, ended, others, one_off, joined, spent};

use crate::Machine;
use crate::view::{Charter, Kept, View};
use atomic_table::{Join, Play, Seat, Shared, Split, Table, TableRule};
use std::alloc::Global;
use std::marker::PhantomData;

/// The rule. Word 0 is the next ticket, word 1 the one that is served, and the slot has the machine
/// and its history.
pub struct LockRule<M> {
    of: PhantomData<M>,
}

/// The words and the slot of a lock.
pub type LockTable<M> = Table<Option<Kept<M>>, View<M>, Charter<M>, LockRule<M>, Global>;

/// What the seats of a lock share.
pub type LockShared<M> = Shared<Option<Kept<M>>, View<M>, Charter<M>, LockRule<M>>;

/// A seat at the lock's table.
pub type LockSeat<M> = Seat<Option<Kept<M>>, View<M>>;

impl<M: Machine> TableRule<Option<Kept<M>>, View<M>, Charter<M>> for LockRule<M> {
    ghost holds = { λ key. Rule M.after M.reply_to (terms_of M.first key) };

    ghost first = { λ key. opened (terms_of M.first key) };
}

/// Draws a ticket.
pub struct Draw;

impl<M: Machine> Play<Option<Kept<M>>, View<M>> for Draw {
    ghost then = { drawn };
}

/// Loads the ticket that is served.
pub struct Look;

impl<M: Machine> Play<Option<Kept<M>>, View<M>> for Look {
    ghost then = { looked };
}

/// Takes the slot, as the seat that is served.
pub struct Take;

impl<M: Machine> Play<Option<Kept<M>>, View<M>> for Take {
    ghost then = { took M.after M.reply_to };
}

/// Gives the slot back, with one entry more.
pub struct Give;

impl<M: Machine> Play<Option<Kept<M>>, View<M>> for Give {
    ghost then = { gave };
}

/// Serves the next ticket.
pub struct Serve;

impl<M: Machine> Play<Option<Kept<M>>, View<M>> for Serve {
    ghost then = { served };
}

/// Takes the slot for good, as the seat that has all others.
pub struct End;

impl<M: Machine> Play<Option<Kept<M>>, View<M>> for End {
    ghost then = { ended M.after M.reply_to };
}

/// Cuts the first seat off.
pub struct OneOff;

impl<M: Machine> Split<View<M>> for OneOff {
    ghost left = { others };

    ghost right = { one_off };
}

/// Puts a seat to the others.
pub struct Together;

impl<M: Machine> Join<View<M>> for Together {
    ghost both = { joined };

    ghost spent = { spent };
}
