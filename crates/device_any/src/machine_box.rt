//! A machine with its history, or its seats.
ghost use Rattle.std.specs.Prelude.{◌≡◌, ◌+◌, ◌^◌, ◌<◌, ◌++◌, ◌∷◌, [], true, length, sum, IfOk, OnOk};
ghost use Rattle.hist_lock.specs.History.{entries_of};
ghost use Rattle.device_any.specs.MachineBoxes.{AreSeatsOf, CanUnite, IsNew, IsWhole, Unites, is_shared, own_seats, past_in};

use hist_lock::{HistLock, HistSeat, History, Machine};
use std::alloc::{AllocError, Global};
use std::mem;

/// A machine with its history; or, while channels call it, its seats that stand here: all of them before the channels are opened, none while these run,
/// and all again once they are closed.
#[derive(Drop)]
pub enum MachineBox<M: Machine> {
    /// The machine, and what it served so far.
    Whole(M, History<M>),
    /// The seats, in order of their numbers.
    Shared(Vec<HistSeat<M>>),
    /// Nothing: a refusal of memory took the machine.
    Empty,
}

impl<M: Machine> MachineBox<M> {
    /// A machine that has served nothing.
    pub fn make(alloc: Global, machine: M) -> Result<MachineBox<M>, AllocError>
        requires { M.first machine ≡ machine }
        ensures new { IfOk result (IsNew machine) }
        ensures whole { IfOk result (IsWhole M.first M.after M.reply_to) }
    {
        let seats = HistLock::make(alloc, machine, &[0])?;
        let (machine, history) = HistLock::close(seats);
        Ok(MachineBox::Whole(machine, history))
    }

    /// Opens the machine's history again, with a seat for so many calls for each of its channels.
    pub fn share(&mut self, alloc: Global, quotas: &[u32]) -> Result<(), AllocError>
        requires whole { IsWhole M.first M.after M.reply_to self.old }
        requires some { 0 < length quotas.now }
        requires few { length quotas.now < 2 ^ 32 }
        requires room { length (past_in self.old) + sum quotas.now < 2 ^ 32 }
        ensures seats { OnOk result (AreSeatsOf M.first self.old quotas.now (own_seats self.new)) }
        ensures shared { OnOk result (is_shared self.new ≡ true) }
    {
        match mem::replace(self, MachineBox::Empty) {
            MachineBox::Whole(machine, history) => {
                let seats = HistLock::reopen(alloc, machine, history, quotas)?;
                *self = MachineBox::Shared(seats);
                Ok(())
            }
            MachineBox::Shared(_) => unreachable!(),
            MachineBox::Empty => unreachable!(),
        }
    }

    /// Takes the first seat.
    pub fn take_first(&mut self) -> HistSeat<M>
        requires { 0 < length (own_seats self.old) }
        ensures first { own_seats self.old ≡ result ∷ own_seats self.new }
        ensures shared { is_shared self.new ≡ is_shared self.old }
    {
        match self {
            MachineBox::Shared(seats) => seats.remove(0),
            MachineBox::Whole(_, _) => unreachable!(),
            MachineBox::Empty => unreachable!(),
        }
    }

    /// Puts a seat behind the others.
    pub fn give_back(&mut self, seat: HistSeat<M>) -> Result<(), AllocError>
        requires { is_shared self.old ≡ true }
        ensures seats { OnOk result (own_seats self.new ≡ own_seats self.old ++ seat ∷ []) }
        ensures shared { OnOk result (is_shared self.new ≡ true) }
    {
        match self {
            MachineBox::Shared(seats) => {
                seats.push(seat)?;
                Ok(())
            }
            MachineBox::Whole(_, _) => unreachable!(),
            MachineBox::Empty => unreachable!(),
        }
    }

    /// Closes the machine's history, once its channels gave all seats back: the machine is whole again. One that wasn't shared stays. It takes no memory.
    pub fn unite(&mut self)
        requires { CanUnite self.old }
        ensures { Unites M.first M.after M.reply_to self.old self.new }
    {
        match mem::replace(self, MachineBox::Empty) {
            MachineBox::Whole(machine, history) => *self = MachineBox::Whole(machine, history),
            MachineBox::Shared(seats) => {
                let (machine, history) = HistLock::close(seats);
                *self = MachineBox::Whole(machine, history);
            }
            MachineBox::Empty => {}
        }
    }

    /// What the machine served.
    pub fn into_history(self) -> History<M>
        requires { IsWhole M.first M.after M.reply_to self }
        ensures { entries_of result ≡ past_in self }
    {
        match self {
            MachineBox::Whole(_, history) => history,
            MachineBox::Shared(_) => unreachable!(),
            MachineBox::Empty => unreachable!(),
        }
    }
}
