//! A caller's place at a machine.
ghost use Rattle.std.specs.Prelude.{◌≡◌, ◌+◌, ◌<◌, ◌≤◌, [], ◌∷◌, ◌++◌, All, length};
ghost use Rattle.hist_lock.specs.Legal.{Replies};

use crate::rule::{LockSeat, LockTable};
use crate::turn::{draw, give, note, serve, take, wait_for};
use crate::{Machine, Receipt};
use std::alloc::Global;
use std::marker::Model;
use std::sync::{Arc, Wait};

/// A place from which calls are made at a machine, one after the other.
///
/// The seats of one lock may stand in threads of their own.
#[derive(Drop)]
pub struct HistSeat<M: Machine> {
    pub(crate) table: Arc<LockTable<M>, Global>,
    pub(crate) seat: LockSeat<M>,
    pub(crate) number: u32,
    pub(crate) left: u32,
}

impl<M: Machine> Model for HistSeat<M> {
    ghost use Rattle.std.specs.Arc.{arc_value};
    ghost use Rattle.hist_lock.specs.Seat.{Seat};
    ghost use Rattle.hist_lock.specs.Sitting.{terms_of, lock_of, calls_in, IsSeated};

    ghost Value = { Seat M M.Request M.Reply };

    ghost view = { λ s. let shared = (arc_value s.table).shared in record { lock = lock_of shared.table_id (terms_of M.first shared.key); number = s.number; left = s.left; calls = calls_in s.seat.me.0.lines } };

    ghost invariant = { λ s. let shared = (arc_value s.table).shared in IsSeated M.first (terms_of M.first shared.key) shared.table_id s.seat.table_id s.seat.me s.number s.left };
}

impl<M: Machine> HistSeat<M> {
    /// How many calls the seat may still make.
    pub fn left(&self) -> u32
        ensures { result ≡ self.now.left }
    {
        self.left
    }

    /// Makes a call: the machine serves the request, and the history gets it as one entry.
    ///
    /// The call draws a ticket and sleeps until the calls with earlier tickets are served. The
    /// serial is above those of the seat's earlier calls and at or above the length of the history
    /// that the lock began with. The reply is the machine's in a state of its setup; in which one,
    /// the history tells. The call takes no memory.
    pub fn with<R: Wait>(&mut self, rt: &R, request: M::Request) -> Receipt<M::Reply>
        requires { 0 < self.old.left }
        ensures calls { self.new.calls ≡ self.old.calls ++ record { serial = result.serial; request = request; reply = result.reply } ∷ [] }
        ensures later { All (λ c. c.serial < result.serial) self.old.calls }
        ensures behind { length self.old.lock.past ≤ result.serial }
        ensures machine { Replies M.first M.reply_to self.old.lock.first request result.reply }
        ensures fits { M.fits request result.reply }
        ensures left { self.new.left + 1 ≡ self.old.left }
        ensures lock { self.new.lock ≡ self.old.lock }
        ensures number { self.new.number ≡ self.old.number }
    {
        let shared = &self.table.shared;
        let ticket = draw(shared, &mut self.seat);
        wait_for(rt, shared, &mut self.seat, ticket);
        let mut kept = take(shared, &mut self.seat, ticket);
        let reply = kept.state.apply(&request);
        note(&mut kept.entries, self.number, request, &reply);
        give(shared, &mut self.seat, kept);
        serve(shared, &mut self.seat, ticket);
        self.left -= 1;
        Receipt {
            serial: ticket as u32,
            reply,
        }
    }
}
